// A chart made by hand: a square of 32,000 units from 0 0, a coverage and a depth area in it, and a sounding.
ghost use Rattle.std.specs.Prelude.{◌≡◌, ◌∷◌, [], IfOk};
ghost use Rattle.tests_cells.specs.ByHand.{border, coverage, depth_area, sounding, square};
ghost use Rattle.tests_cells.specs.ByHand.{header as the_header, isolated as the_isolated, connected as the_connected, edges as the_edges};

use chart_model::{
    Attribute, Chart, Connected, Edge, Feature, Header, Isolated, Items, PartFault, Parts, Pointer,
    Shape, Sounding,
};
use plane_geom::Point;
use std::alloc::{AllocError, Global};

fn text(alloc: Global, bytes: &[u8]) -> Result<Items<u8>, AllocError>
    ensures { IfOk result (λ t. t ≡ bytes.now) }
{
    Ok(Items::over(Vec::from_slice(alloc, bytes)?))
}

fn header(alloc: Global) -> Result<Header, AllocError>
    ensures { IfOk result (λ h. h ≡ the_header) }
{
    Ok(Header {
        expp: 1,
        intu: 5,
        dsnm: text(alloc, b"XX5ROW02.000")?,
        edtn: text(alloc, b"1")?,
        updn: text(alloc, b"0")?,
        uadt: *b"20240131",
        isdt: *b"20240131",
        sted: *b"03.1",
        prsp: 1,
        psdn: Items::over(Vec::new(alloc)),
        pred: text(alloc, b"2.0")?,
        prof: 1,
        agen: 7,
        comt: Items::over(Vec::new(alloc)),
        aall: 0,
        nall: 0,
        hdat: 2,
        vdat: 3,
        sdat: 23,
        cscl: 12000,
        huni: 1,
        puni: 1,
        note: Items::over(Vec::new(alloc)),
    })
}

fn isolated(alloc: Global) -> Result<Vec<Isolated>, AllocError>
    ensures { IfOk result (λ v. v.items ≡ the_isolated) }
{
    let sounding = Sounding {
        at: Point { x: 0, y: 32000 },
        depth: 100,
    };
    let soundings = vec![in alloc; sounding]?;
    let mut list = Vec::new(alloc);
    list.push(Isolated {
        rcid: 1,
        rver: 1,
        shape: Shape::Soundings(Items::over(soundings)),
    })?;
    Ok(list)
}

fn connected(alloc: Global) -> Result<Vec<Connected>, AllocError>
    ensures { IfOk result (λ v. v.items ≡ the_connected) }
{
    let node = Connected {
        rcid: 1,
        rver: 1,
        at: Point { x: 0, y: 0 },
    };
    Ok(vec![in alloc; node]?)
}

fn edges(alloc: Global) -> Result<Vec<Edge>, AllocError>
    ensures { IfOk result (λ v. v.items ≡ the_edges) }
{
    let north_west = Point { x: 0, y: 32000 };
    let north_east = Point { x: 32000, y: 32000 };
    let south_east = Point { x: 32000, y: 0 };
    let inner = vec![in alloc; north_west, north_east, south_east]?;
    let mut list = Vec::new(alloc);
    list.push(Edge {
        rcid: 1,
        rver: 1,
        first: 1,
        last: 1,
        inner: Items::over(inner),
    })?;
    Ok(list)
}

fn border(alloc: Global) -> Result<Vec<Pointer>, AllocError>
    ensures { IfOk result (λ v. v.items ≡ border) }
{
    let pointer = Pointer {
        rcnm: 130,
        rcid: 1,
        ornt: 1,
        usag: 3,
        mask: 255,
    };
    Ok(vec![in alloc; pointer]?)
}

fn attribute(alloc: Global, code: u16, bytes: &[u8]) -> Result<Attribute, AllocError>
    ensures { IfOk result (λ a. a ≡ record { code = code; text = bytes.now }) }
{
    let text = text(alloc, bytes)?;
    Ok(Attribute { code, text })
}

fn coverage(alloc: Global) -> Result<Feature, AllocError>
    ensures { IfOk result (λ f. f ≡ coverage) }
{
    let mut attributes = Vec::new(alloc);
    attributes.push(attribute(alloc, 18, b"1")?)?;
    let pointers = border(alloc)?;
    Ok(Feature {
        rcid: 1,
        rver: 1,
        prim: 3,
        grup: 2,
        objl: 302,
        agen: 7,
        fidn: 1,
        fids: 1,
        attributes: Items::over(attributes),
        pointers: Items::over(pointers),
    })
}

fn depth_area(alloc: Global) -> Result<Feature, AllocError>
    ensures { IfOk result (λ f. f ≡ depth_area) }
{
    let mut attributes = Vec::new(alloc);
    attributes.push(attribute(alloc, 87, b"10")?)?;
    attributes.push(attribute(alloc, 88, b"10.1")?)?;
    let pointers = border(alloc)?;
    Ok(Feature {
        rcid: 2,
        rver: 1,
        prim: 3,
        grup: 1,
        objl: 42,
        agen: 7,
        fidn: 2,
        fids: 1,
        attributes: Items::over(attributes),
        pointers: Items::over(pointers),
    })
}

fn sounding(alloc: Global) -> Result<Feature, AllocError>
    ensures { IfOk result (λ f. f ≡ sounding) }
{
    let pointer = Pointer {
        rcnm: 110,
        rcid: 1,
        ornt: 255,
        usag: 255,
        mask: 255,
    };
    let pointers = vec![in alloc; pointer]?;
    Ok(Feature {
        rcid: 3,
        rver: 1,
        prim: 1,
        grup: 2,
        objl: 129,
        agen: 7,
        fidn: 3,
        fids: 1,
        attributes: Items::over(Vec::new(alloc)),
        pointers: Items::over(pointers),
    })
}

fn features(alloc: Global) -> Result<Vec<Feature>, AllocError>
    ensures { IfOk result (λ v. v.items ≡ coverage ∷ depth_area ∷ sounding ∷ []) }
{
    let mut list = Vec::new(alloc);
    list.push(coverage(alloc)?)?;
    list.push(depth_area(alloc)?)?;
    list.push(sounding(alloc)?)?;
    Ok(list)
}

#[tactic(auto, unfolding(crate::specs::ByHand::square))]
fn parts(alloc: Global) -> Result<Parts, AllocError>
    ensures { IfOk result (λ p. p ≡ square) }
{
    let header = header(alloc)?;
    let isolated = isolated(alloc)?;
    let connected = connected(alloc)?;
    let edges = edges(alloc)?;
    let features = features(alloc)?;
    Ok(Parts {
        header,
        isolated: Items::over(isolated),
        connected: Items::over(connected),
        edges: Items::over(edges),
        features: Items::over(features),
    })
}

/// The chart.
pub fn chart(alloc: Global) -> Result<Chart, PartFault>
    ensures { IfOk result (λ c. c ≡ square) }
{
    let parts = parts(alloc)?;
    Chart::new(alloc, parts)
}
