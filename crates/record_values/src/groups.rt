// The groups of fields that repeat one: points, soundings and pointers.
ghost use Rattle.std.specs.Prelude.{◌≡◌, ℕ, List, Option, ◌<◌, ◌++◌, ◌/◌, length, OnOk, flat_map, option_to_list};
ghost use Rattle.record_values.specs.Fields.{bodies};
ghost use Rattle.record_values.specs.Groups.{each, point_at, sounding_at, end_at, pointer_at};
ghost use Rattle.record_values.specs.Views.{views};

use chart_model::{Pointer, Sounding};
use iso8211_codec::{Field, Tag};
use plane_geom::Point;
use s57_records::{Vrpt, fspt, sg2d, sg3d, vrpt};
use std::alloc::AllocError;

/// A group of a field.
pub trait Group: Copy {
    /// Group k of a body, where it is there to its end.
    ghost at: { List ℕ → ℕ → Option Self };

    /// Group `k` of a body, from 0; None where it isn't there to its end.
    fn read(body: &[u8], k: usize) -> Option<Self>
        ensures { result ≡ at body.now k };
}

impl Group for Point {
    ghost at = { point_at };

    fn read(body: &[u8], k: usize) -> Option<Point> {
        match sg2d(body, k) {
            Some((y, x)) => Some(Point { x, y }),
            None => None,
        }
    }
}

impl Group for Sounding {
    ghost at = { sounding_at };

    fn read(body: &[u8], k: usize) -> Option<Sounding> {
        match sg3d(body, k) {
            Some((y, x, depth)) => Some(Sounding {
                at: Point { x, y },
                depth,
            }),
            None => None,
        }
    }
}

impl Group for Vrpt {
    ghost at = { end_at };

    fn read(body: &[u8], k: usize) -> Option<Vrpt> {
        vrpt(body, k)
    }
}

impl Group for Pointer {
    ghost at = { pointer_at };

    fn read(body: &[u8], k: usize) -> Option<Pointer> {
        match fspt(body, k) {
            Some(p) => Some(Pointer {
                rcnm: p.rcnm,
                rcid: p.rcid,
                ornt: p.ornt,
                usag: p.usag,
                mask: p.mask,
            }),
            None => None,
        }
    }
}

/// Appends a group where there is one.
fn append_some<G: Group>(list: &mut Vec<G>, found: Option<G>) -> Result<(), AllocError>
    ensures { OnOk result (list.new.items ≡ list.old.items ++ option_to_list found) }
{
    if let Some(group) = found {
        list.push(group)?;
    }
    Ok(())
}

/// Appends the groups of so many bytes of a body.
fn append_groups<G: Group>(body: &[u8], size: usize, list: &mut Vec<G>) -> Result<(), AllocError>
    requires { 0 < size }
    ensures { OnOk result (list.new.items ≡ list.old.items ++ each (G.at body.now) (length body.now / size)) }
{
    let count = body.len() / size;
    list.reserve(count)?;
    for k in 0..count {
        append_some(list, G::read(body, k))?;
    }
    Ok(())
}

/// Replaces these by the groups, of so many bytes each, of all fields with a tag.
pub fn list_groups<G: Group>(
    fields: &[Field<'_>],
    tag: Tag,
    size: usize,
    list: &mut Vec<G>,
) -> Result<(), AllocError>
    requires { 0 < size }
    ensures { OnOk result (list.new.items ≡ flat_map (λ body. each (G.at body) (length body / size)) (bodies tag (views fields.now))) }
{
    list.clear();
    for field in fields {
        if field.tag == tag {
            append_groups(field.body, size, list)?;
        }
    }
    Ok(())
}
