// The code's table against the definitions' one.
ghost use Rattle.s57_codes.specs.Law.{AreObjects, AreAttributes, AreRecordNames, AreGeometries, AreMarks, AreInstructions, AreUnits, AreTags};

/// Each constant of this crate is the number or the tag that the standard's table in the definitions gives. It does nothing.
pub fn codes_are_the_catalogues()
    ensures objects { AreObjects }
    ensures attributes { AreAttributes }
    ensures record_names { AreRecordNames }
    ensures geometries { AreGeometries }
    ensures marks { AreMarks }
    ensures instructions { AreInstructions }
    ensures units { AreUnits }
    ensures tags { AreTags }
{}
