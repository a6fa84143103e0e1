// What lies on the two sides of a link: triangles, their pieces, and faces.
ghost use Rattle.std.specs.Prelude.{◌≡◌, option_map, IfSome, IsTrue};
ghost use Rattle.boundary_arcs.specs.Collecting.{AreOneFace, HasPlace, HasTri, IsIn, beside_of, place_at, same_side};
ghost use Rattle.face_fill.specs.Numbered.{face_at};
ghost use Rattle.face_fill.specs.Views.{faces_view};
ghost use Rattle.tri_mesh.specs.Fields.{field_in};

use depth_rounding::Levels;
use face_fill::Faces;
use mesh_definitions::Tri;
use shoal_buffer::Charted;
use tri_mesh::{Pieces, pieces};

// A triangle beside a link, and its pieces.
#[derive(Clone, Copy)]
pub(crate) struct Beside {
    pub tri: Tri,
    pub pieces: Pieces,
}

// A triangle with its pieces.
pub(crate) fn with_pieces(tri: Option<Tri>, ch: &Charted, levels: &Levels) -> Option<Beside>
    requires { IfSome tri (IsIn (field_in ch.now levels.now)) }
    ensures { result ≡ option_map (beside_of (field_in ch.now levels.now)) tri }
{
    match tri {
        Some(tri) => Some(Beside {
            tri,
            pieces: pieces(tri, ch, levels),
        }),
        None => None,
    }
}

// The face of a triangle beside a link at the part in a band. An unsurveyed triangle is one piece by band 0, whatever the
// bands of the parts of its legs.
pub(crate) fn face_beside(side: Option<Beside>, band: u32, faces: &Faces) -> Option<u32>
    requires { IfSome side (HasPlace (faces_view faces.now) band) }
    ensures { result ≡ option_map (λ s. face_at (faces_view faces.now) s.tri (place_at band s)) side }
{
    match side {
        Some(Beside { tri, pieces }) => {
            let band = if pieces.surveyed { band } else { 0 };
            Some(faces.face_of(tri, band - pieces.first))
        },
        None => None,
    }
}

// Whether one face lies on both sides, or none does. What has a face on one side alone is a border of the coverage.
pub(crate) fn is_same(left: Option<u32>, right: Option<u32>) -> bool
    ensures { result ≡ same_side left right }
{
    match (left, right) {
        (Some(a), Some(b)) => a == b,
        (None, None) => true,
        _ => false,
    }
}

// Whether two triangles are there, are one piece each, and are of one face.
pub(crate) fn is_one_face(left: Option<Tri>, right: Option<Tri>, faces: &Faces) -> bool
    requires left { IfSome left (HasTri (faces_view faces.now)) }
    requires right { IfSome right (HasTri (faces_view faces.now)) }
    ensures { IsTrue result → AreOneFace (faces_view faces.now) left right }
{
    let (Some(a), Some(b)) = (left, right) else {
        return false;
    };
    if faces.piece_count(a) != 1 || faces.piece_count(b) != 1 {
        return false;
    }
    faces.face_of(a, 0) == faces.face_of(b, 0)
}
