// The first record of a file, which says how the fields of the others are laid out.
ghost use Rattle.std.specs.Prelude.{◌≡◌, ◌++◌, is_ok, if◌then◌else◌};
ghost use Rattle.iso8211_codec.specs.First.{first};
ghost use Rattle.iso8211_codec.specs.Room.{KeepsRoom};

use crate::bytes::append;
use std::alloc::AllocError;

/// The bytes of the first record.
pub const FIRST_LEN: usize = 1352;

/// Appends the first record of a file, the data descriptive record of ISO/IEC 8211: one fixed text, this project's choice
/// after S-57. Memory is asked for only where `out` has no room for it. A refusal leaves `out` as it was.
pub fn write_first(out: &mut Vec<u8>) -> Result<(), AllocError>
    ensures items { out.new.items ≡ (if is_ok result then out.old.items ++ first else out.old.items) }
    ensures room { KeepsRoom out.old out.new }
{
    append(
        out,
        b"013523LE1 0900207 ! 5504\
0000000990000000010004700099DSID0016500146DSSI0011300311DSPM0013000424VRID0007800554VRPT0007600632SG2D0004800708SG3D0007000756FRID0010000826FOID0007000926ATTF0005900996FSPT0009001055\x1e\
0000;&   \x1f0001DSIDDSIDDSSI0001DSPM0001VRIDVRIDVRPTVRIDSG2DVRIDSG3D0001FRIDFRIDFOIDFRIDATTFFRIDFSPT\x1e\
0500;&   ISO/IEC 8211 Record Identifier\x1f\x1f(b12)\x1e\
1600;&   Data Set Identification Field\x1fRCNM!RCID!EXPP!INTU!DSNM!EDTN!UPDN!UADT!ISDT!STED!PRSP!PSDN!PRED!PROF!AGEN!COMT\x1f(b11,b14,2b11,3A,2A(8),R(4),b11,2A,b11,b12,A)\x1e\
1600;&   Data Set Structure Information Field\x1fDSTR!AALL!NALL!NOMR!NOCR!NOGR!NOLR!NOIN!NOCN!NOED!NOFA\x1f(3b11,8b14)\x1e\
1600;&   Data Set Parameter Field\x1fRCNM!RCID!HDAT!VDAT!SDAT!CSCL!DUNI!HUNI!PUNI!COUN!COMF!SOMF!COMT\x1f(b11,b14,3b11,b14,4b11,2b14,A)\x1e\
1600;&   Vector Record Identifier Field\x1fRCNM!RCID!RVER!RUIN\x1f(b11,b14,b12,b11)\x1e\
2600;&   Vector Record Pointer Field\x1f*NAME!ORNT!USAG!TOPI!MASK\x1f(B(40),4b11)\x1e\
2500;&   2-D Coordinate Field\x1f*YCOO!XCOO\x1f(2b24)\x1e\
2500;&   3-D Coordinate (Sounding Array) Field\x1f*YCOO!XCOO!VE3D\x1f(3b24)\x1e\
1600;&   Feature Record Identifier Field\x1fRCNM!RCID!PRIM!GRUP!OBJL!RVER!RUIN\x1f(b11,b14,2b11,2b12,b11)\x1e\
1600;&   Feature Object Identifier Field\x1fAGEN!FIDN!FIDS\x1f(b12,b14,b12)\x1e\
2600;&   Feature Record Attribute Field\x1f*ATTL!ATVL\x1f(b12,A)\x1e\
2600;&   Feature Record to Spatial Record Pointer Field\x1f*NAME!ORNT!USAG!MASK\x1f(B(40),3b11)\x1e",
    )
}
