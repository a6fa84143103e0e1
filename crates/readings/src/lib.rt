//! What a reading answers: the words in which definitions say that bytes or a text give a value or a first fault, and in
//! which contracts say that a function answers the same. There is no code here.
#![tactic(auto)]
