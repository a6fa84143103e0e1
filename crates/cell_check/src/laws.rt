// A law over the definitions: the function's contract is the law, and it does nothing.
ghost use Rattle.cell_check.specs.Laws.{OneVerdict};

/// One verdict alone is so of a chart.
pub fn one_verdict()
    ensures { OneVerdict }
{}
