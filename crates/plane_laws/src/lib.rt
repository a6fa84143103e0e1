//! Laws of the plane: winding numbers of walks and outlines, the pieces of a triangle, sums that cancel. Each function's
//! contract is a law over the definitions alone, and it does nothing.
#![tactic(auto)]

ghost use Rattle.plane_laws.specs.LineLaws.{SideBack, SideRound, SideChangesEvenly, OnTurned};
ghost use Rattle.plane_laws.specs.CountLaws.{CountIsSum, CountsAdd, CountsInAnyOrder, PointsCountNothing, TurnsBack, WalksAdd, WalksBack};
ghost use Rattle.plane_laws.specs.CountLaws.{CutAtPoint, CutAtPoints, StepsAlong, PassesWhereMet, OddCount, EvenCount, OddInAnyOrder};
ghost use Rattle.plane_laws.specs.OutlineLaws.{ConvexNeverNegative, ConvexBeyondSegment, ApartFromLeft, ApartOnLine, RectangleCount};
ghost use Rattle.plane_laws.specs.PieceLaws.{CornerPieceIsConvex, MiddlePieceIsConvex, MiddlePieceIsConvexBack, LegFromOtherEnd};
ghost use Rattle.plane_laws.specs.PieceLaws.{ChordSideOnFirstLeg, ChordSideOnSecondLeg, ChordSideAtPoint};
ghost use Rattle.plane_laws.specs.SumLaws.{BoundarySum, SumOverPieces, CountOverPieces, OutlineSum, ShareOfSum, SharesApart, ShareOfMember, OneOfSum};

/// The side of a line, where its ends change places or a point moves along equal steps.
pub fn line_sides()
    ensures back { SideBack }
    ensures round { SideRound }
    ensures evenly { SideChangesEvenly }
    ensures on_turned { OnTurned }
{}

/// The winding number of segments is a sum: it adds up over lists and along walks, in any order, and changes its sign
/// with the direction.
pub fn winding_numbers()
    ensures sum { CountIsSum }
    ensures lists { CountsAdd }
    ensures any_order { CountsInAnyOrder }
    ensures points { PointsCountNothing }
    ensures turned { TurnsBack }
    ensures walks { WalksAdd }
    ensures walks_back { WalksBack }
{}

/// The sub-segments of a straight segment add up to it.
pub fn cut_segments()
    ensures once { CutAtPoint }
    ensures often { CutAtPoints }
    ensures in_steps { StepsAlong }
{}

/// A segment passes east of a point exactly where it meets the point's height there, and the parity of the segments
/// that do agrees with their winding number.
pub fn count_parity()
    ensures passes { PassesWhereMet }
    ensures odd { OddCount }
    ensures even { EvenCount }
    ensures any_order { OddInAnyOrder }
{}

/// A convex outline that is walked clockwise never counts below 0, and an outline counts 0 where a line separates the
/// point from it.
pub fn convex_outlines()
    ensures never_negative { ConvexNeverNegative }
    ensures beyond { ConvexBeyondSegment }
    ensures apart { ApartFromLeft }
    ensures apart_on_line { ApartOnLine }
{}

/// The exact winding number of an upright rectangle.
pub fn rectangle_counts()
    ensures { RectangleCount }
{}

/// The pieces of a triangle that chords cut are convex outlines, also where slots are equal.
pub fn triangle_pieces()
    ensures corner { CornerPieceIsConvex }
    ensures middle { MiddlePieceIsConvex }
    ensures middle_back { MiddlePieceIsConvexBack }
    ensures other_end { LegFromOtherEnd }
{}

/// The side of a chord, at a point of a leg of its corner, is an order of slots times one sign.
pub fn chord_sides()
    ensures first_leg { ChordSideOnFirstLeg }
    ensures second_leg { ChordSideOnSecondLeg }
    ensures at_point { ChordSideAtPoint }
{}

/// What two pieces share cancels: boundaries add up over pieces. `X` are the steps along sub-segments and `Q` the
/// pieces, of any types.
pub fn boundary_sums<X, Q>()
    ensures boundary_sum { BoundarySum X Q }
    ensures over_pieces { SumOverPieces X Q }
    ensures count { CountOverPieces X Q }
    ensures outline_sum { OutlineSum X Q }
{}

/// Values from 0 up share their sum: where it is 1, one of them is 1.
pub fn shares_of_sums<Q>()
    ensures share { ShareOfSum Q }
    ensures apart { SharesApart Q }
    ensures member { ShareOfMember Q }
    ensures one { OneOfSum Q }
{}
