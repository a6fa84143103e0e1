// Fields that are added to a record.
ghost use Rattle.std.specs.Prelude.{◌≡◌, ◌++◌, ◌∷◌, [], ℤ, All, OnOk, map};
ghost use Rattle.std.specs.List.{flat_map};
ghost use Rattle.cell_writer.specs.Drafts.{Adds};
ghost use Rattle.cell_writer.specs.Layout.{attribute_values, end_values, groups, point_values, pointer_values, some_groups, sounding_values, vector, vector_values};
ghost use Rattle.chart_model.specs.Whole.{IsText};
ghost use Rattle.chart_model.specs.declared.records.Attribute.{Attribute};
ghost use Rattle.chart_model.specs.declared.records.Pointer.{Pointer};
ghost use Rattle.chart_model.specs.declared.records.Sounding.{Sounding};
ghost use Rattle.plane_geom.specs.declared.Point.{Point};
ghost use Rattle.s57_codes.specs.Catalogue.{tag_attf, tag_fspt, tag_sg2d, tag_sg3d, tag_vrpt, topi_beginning, topi_end};
ghost use Rattle.s57_records.specs.Fields.{attribute, fspt, sg2d, sg3d, vrid, vrpt};
ghost use Rattle.s57_records.specs.Formats.{AllFit, field_of};

use crate::draft::Draft;
use crate::laws::word_law;
use chart_model::{Attribute, Pointer, Sounding};
use plane_geom::Point;
use s57_codes::code::{BEGINNING, CONNECTED_NODE, END, INSERT, NULL};
use s57_codes::tag;
use s57_records::{
    Fspt, Vrid, Vrpt, close, push_attribute, push_fspt, push_sg2d, push_sg3d, push_vrpt, write_vrid,
};
use std::alloc::AllocError;

/// Adds VRID, the identifier of a vector record that is inserted.
pub(crate) fn add_vector(
    draft: &mut Draft,
    rcnm: u8,
    rcid: u32,
    rver: u16,
) -> Result<(), AllocError>
    ensures adds { OnOk result (Adds (vector rcnm rcid rver ∷ []) draft.old draft.new) }
    ensures fits { OnOk result (AllFit vrid (vector_values rcnm rcid rver)) }
{
    let from = draft.bodies.len();
    let value = Vrid {
        rcnm,
        rcid,
        rver,
        ruin: INSERT,
    };
    write_vrid(&mut draft.bodies, &value)?;
    draft.end(tag::VRID, from)
}

// ORNT, USAG and MASK of a pointer to a node say nothing (S-57 Edition 3.1, Part 3, 7.7.1.4): TOPI alone tells the ends apart.
fn put_end(bodies: &mut Vec<u8>, topi: u8, rcid: u32) -> Result<(), AllocError>
    ensures items { OnOk result (bodies.new.items ≡ bodies.old.items ++ field_of vrpt (end_values topi rcid)) }
    ensures fits { OnOk result (AllFit vrpt (end_values topi rcid)) }
{
    let pointer = Vrpt {
        rcnm: CONNECTED_NODE,
        rcid,
        ornt: NULL,
        usag: NULL,
        topi,
        mask: NULL,
    };
    push_vrpt(bodies, &pointer)
}

/// Adds VRPT, the pointers of an edge to the nodes at its ends.
pub(crate) fn add_ends(draft: &mut Draft, first: u32, last: u32) -> Result<(), AllocError>
    ensures adds { OnOk result (Adds (groups tag_vrpt vrpt (end_values topi_beginning first ∷ end_values topi_end last ∷ []) ∷ []) draft.old draft.new) }
    ensures fits { OnOk result (AllFit vrpt (end_values topi_beginning first) × AllFit vrpt (end_values topi_end last)) }
{
    let from = draft.bodies.len();
    put_end(&mut draft.bodies, BEGINNING, first)?;
    put_end(&mut draft.bodies, END, last)?;
    close(&mut draft.bodies)?;
    draft.end(tag::VRPT, from)
}

fn put_point(bodies: &mut Vec<u8>, point: Point) -> Result<(), AllocError>
    ensures items { OnOk result (bodies.new.items ≡ bodies.old.items ++ field_of sg2d (point_values point)) }
    ensures fits { OnOk result (AllFit sg2d (point_values point)) }
{
    push_sg2d(bodies, point.y, point.x)
}

/// Adds SG2D of one point.
pub(crate) fn add_point(draft: &mut Draft, point: Point) -> Result<(), AllocError>
    ensures adds { OnOk result (Adds (groups tag_sg2d sg2d (point_values point ∷ []) ∷ []) draft.old draft.new) }
    ensures fits { OnOk result (AllFit sg2d (point_values point)) }
{
    let from = draft.bodies.len();
    put_point(&mut draft.bodies, point)?;
    close(&mut draft.bodies)?;
    draft.end(tag::SG2D, from)
}

fn put_points(bodies: &mut Vec<u8>, points: &[Point]) -> Result<(), AllocError>
    ensures items { OnOk result (bodies.new.items ≡ bodies.old.items ++ flat_map (field_of sg2d) (map point_values points.now)) }
    ensures fits { OnOk result (All (λ (p : Point). AllFit sg2d (point_values p)) points.now) }
{
    for point in points {
        put_point(bodies, *point)?;
    }
    Ok(())
}

/// Adds SG2D of these points, where there are some.
pub(crate) fn add_points(draft: &mut Draft, points: &[Point]) -> Result<(), AllocError>
    ensures adds { OnOk result (Adds (some_groups tag_sg2d sg2d (map point_values points.now)) draft.old draft.new) }
    ensures fits { OnOk result (All (λ (p : Point). AllFit sg2d (point_values p)) points.now) }
{
    if points.is_empty() {
        return Ok(());
    }
    let from = draft.bodies.len();
    put_points(&mut draft.bodies, points)?;
    close(&mut draft.bodies)?;
    draft.end(tag::SG2D, from)
}

fn put_sounding(bodies: &mut Vec<u8>, sounding: Sounding) -> Result<(), AllocError>
    ensures items { OnOk result (bodies.new.items ≡ bodies.old.items ++ field_of sg3d (sounding_values sounding)) }
    ensures fits { OnOk result (AllFit sg3d (sounding_values sounding)) }
{
    push_sg3d(bodies, sounding.at.y, sounding.at.x, sounding.depth)
}

fn put_soundings(bodies: &mut Vec<u8>, soundings: &[Sounding]) -> Result<(), AllocError>
    ensures items { OnOk result (bodies.new.items ≡ bodies.old.items ++ flat_map (field_of sg3d) (map sounding_values soundings.now)) }
    ensures fits { OnOk result (All (λ (s : Sounding). AllFit sg3d (sounding_values s)) soundings.now) }
{
    for sounding in soundings {
        put_sounding(bodies, *sounding)?;
    }
    Ok(())
}

/// Adds SG3D of these soundings.
pub(crate) fn add_soundings(draft: &mut Draft, soundings: &[Sounding]) -> Result<(), AllocError>
    ensures adds { OnOk result (Adds (groups tag_sg3d sg3d (map sounding_values soundings.now) ∷ []) draft.old draft.new) }
    ensures fits { OnOk result (All (λ (s : Sounding). AllFit sg3d (sounding_values s)) soundings.now) }
{
    let from = draft.bodies.len();
    put_soundings(&mut draft.bodies, soundings)?;
    close(&mut draft.bodies)?;
    draft.end(tag::SG3D, from)
}

fn put_attribute(bodies: &mut Vec<u8>, value: &Attribute) -> Result<(), AllocError>
    requires { IsText value.now.text }
    ensures items { OnOk result (bodies.new.items ≡ bodies.old.items ++ field_of attribute (attribute_values value.now)) }
    ensures fits { OnOk result (AllFit attribute (attribute_values value.now)) }
{
    word_law(value.code);
    push_attribute(bodies, value.code, value.text.as_slice())
}

fn put_attributes(bodies: &mut Vec<u8>, attributes: &[Attribute]) -> Result<(), AllocError>
    requires { All (λ (a : Attribute). IsText a.text) attributes.now }
    ensures items { OnOk result (bodies.new.items ≡ bodies.old.items ++ flat_map (field_of attribute) (map attribute_values attributes.now)) }
    ensures fits { OnOk result (All (λ (a : Attribute). AllFit attribute (attribute_values a)) attributes.now) }
{
    for attribute in attributes {
        put_attribute(bodies, attribute)?;
    }
    Ok(())
}

/// Adds ATTF of these attributes, where there are some.
pub(crate) fn add_attributes(draft: &mut Draft, attributes: &[Attribute]) -> Result<(), AllocError>
    requires { All (λ (a : Attribute). IsText a.text) attributes.now }
    ensures adds { OnOk result (Adds (some_groups tag_attf attribute (map attribute_values attributes.now)) draft.old draft.new) }
    ensures fits { OnOk result (All (λ (a : Attribute). AllFit attribute (attribute_values a)) attributes.now) }
{
    if attributes.is_empty() {
        return Ok(());
    }
    let from = draft.bodies.len();
    put_attributes(&mut draft.bodies, attributes)?;
    close(&mut draft.bodies)?;
    draft.end(tag::ATTF, from)
}

// ORNT, USAG and MASK (S-57 Edition 3.1, Part 3, 7.6.8) are the chart's: which edges lie on its border, and which lines aren't
// drawn, isn't decided here.
fn put_pointer(bodies: &mut Vec<u8>, pointer: Pointer) -> Result<(), AllocError>
    ensures items { OnOk result (bodies.new.items ≡ bodies.old.items ++ field_of fspt (pointer_values pointer)) }
    ensures fits { OnOk result (AllFit fspt (pointer_values pointer)) }
{
    let value = Fspt {
        rcnm: pointer.rcnm,
        rcid: pointer.rcid,
        ornt: pointer.ornt,
        usag: pointer.usag,
        mask: pointer.mask,
    };
    push_fspt(bodies, &value)
}

fn put_pointers(bodies: &mut Vec<u8>, pointers: &[Pointer]) -> Result<(), AllocError>
    ensures items { OnOk result (bodies.new.items ≡ bodies.old.items ++ flat_map (field_of fspt) (map pointer_values pointers.now)) }
    ensures fits { OnOk result (All (λ (p : Pointer). AllFit fspt (pointer_values p)) pointers.now) }
{
    for pointer in pointers {
        put_pointer(bodies, *pointer)?;
    }
    Ok(())
}

/// Adds FSPT of these pointers, where there are some.
pub(crate) fn add_pointers(draft: &mut Draft, pointers: &[Pointer]) -> Result<(), AllocError>
    ensures adds { OnOk result (Adds (some_groups tag_fspt fspt (map pointer_values pointers.now)) draft.old draft.new) }
    ensures fits { OnOk result (All (λ (p : Pointer). AllFit fspt (pointer_values p)) pointers.now) }
{
    if pointers.is_empty() {
        return Ok(());
    }
    let from = draft.bodies.len();
    put_pointers(&mut draft.bodies, pointers)?;
    close(&mut draft.bodies)?;
    draft.end(tag::FSPT, from)
}
