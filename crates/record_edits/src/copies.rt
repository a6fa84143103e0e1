// Copies of records.
ghost use Rattle.std.specs.Prelude.{◌≡◌, IfOk};

use chart_model::{Attribute, Edge, Feature, Header, Isolated, Items, Shape};
use std::alloc::{AllocError, Global};

/// A copy of a list.
pub fn copied_items<T: Copy>(alloc: Global, items: &Items<T>) -> Result<Items<T>, AllocError>
    ensures { IfOk result (λ copy. copy ≡ items.now) }
{
    Ok(Items::over(Vec::from_slice(alloc, items.as_slice())?))
}

pub(crate) fn copied_attribute(
    alloc: Global,
    attribute: &Attribute,
) -> Result<Attribute, AllocError>
    ensures { IfOk result (λ copy. copy ≡ attribute.now) }
{
    let text = copied_items(alloc, &attribute.text)?;
    Ok(Attribute {
        code: attribute.code,
        text,
    })
}

pub(crate) fn copied_attributes(
    alloc: Global,
    attributes: &[Attribute],
) -> Result<Vec<Attribute>, AllocError>
    ensures { IfOk result (λ v. v.items ≡ attributes.now) }
{
    let mut list = Vec::with_capacity(alloc, attributes.len())?;
    for attribute in attributes {
        list.push(copied_attribute(alloc, attribute)?)?;
    }
    Ok(list)
}

fn copied_shape(alloc: Global, shape: &Shape) -> Result<Shape, AllocError>
    ensures { IfOk result (λ copy. copy ≡ shape.now) }
{
    match shape {
        Shape::One(point) => Ok(Shape::One(*point)),
        Shape::Soundings(list) => Ok(Shape::Soundings(copied_items(alloc, list)?)),
    }
}

/// A copy of an isolated node.
pub fn copied_isolated(alloc: Global, node: &Isolated) -> Result<Isolated, AllocError>
    ensures { IfOk result (λ copy. copy ≡ node.now) }
{
    let shape = copied_shape(alloc, &node.shape)?;
    Ok(Isolated {
        rcid: node.rcid,
        rver: node.rver,
        shape,
    })
}

/// A copy of an edge.
pub fn copied_edge(alloc: Global, edge: &Edge) -> Result<Edge, AllocError>
    ensures { IfOk result (λ copy. copy ≡ edge.now) }
{
    let inner = copied_items(alloc, &edge.inner)?;
    Ok(Edge {
        rcid: edge.rcid,
        rver: edge.rver,
        first: edge.first,
        last: edge.last,
        inner,
    })
}

/// A copy of a feature.
pub fn copied_feature(alloc: Global, feature: &Feature) -> Result<Feature, AllocError>
    ensures { IfOk result (λ copy. copy ≡ feature.now) }
{
    let attributes = Items::over(copied_attributes(alloc, feature.attributes.as_slice())?);
    let pointers = copied_items(alloc, &feature.pointers)?;
    Ok(Feature {
        rcid: feature.rcid,
        rver: feature.rver,
        prim: feature.prim,
        grup: feature.grup,
        objl: feature.objl,
        agen: feature.agen,
        fidn: feature.fidn,
        fids: feature.fids,
        attributes,
        pointers,
    })
}

/// A copy of what a cell says of itself.
pub fn copied_header(alloc: Global, header: &Header) -> Result<Header, AllocError>
    ensures { IfOk result (λ copy. copy ≡ header.now) }
{
    let dsnm = copied_items(alloc, &header.dsnm)?;
    let edtn = copied_items(alloc, &header.edtn)?;
    let updn = copied_items(alloc, &header.updn)?;
    let psdn = copied_items(alloc, &header.psdn)?;
    let pred = copied_items(alloc, &header.pred)?;
    let comt = copied_items(alloc, &header.comt)?;
    let note = copied_items(alloc, &header.note)?;
    let uadt = header.uadt;
    let isdt = header.isdt;
    let sted = header.sted;
    Ok(Header {
        expp: header.expp,
        intu: header.intu,
        dsnm,
        edtn,
        updn,
        uadt,
        isdt,
        sted,
        prsp: header.prsp,
        psdn,
        pred,
        prof: header.prof,
        agen: header.agen,
        comt,
        aall: header.aall,
        nall: header.nall,
        hdat: header.hdat,
        vdat: header.vdat,
        sdat: header.sdat,
        cscl: header.cscl,
        huni: header.huni,
        puni: header.puni,
        note,
    })
}
