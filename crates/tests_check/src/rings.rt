// Cells of areas and covers that each have one ring, and an edge of their own for it, as bytes.
use plane_geom::Point;
use std::alloc::{AllocError, Global};
use testing_cells::{SQUARE, file_of};

/// What a ring is the border of.
#[derive(Clone, Copy)]
pub enum Kind {
    /// A depth area in group 1.
    Area,
    /// A depth area in group 2.
    OtherGroup,
    /// Coverage with data, in group 2.
    Cover,
    /// Coverage without data, in group 2.
    NoData,
    /// Coverage with data, in group 1.
    Both,
}

fn object(kind: Kind) -> u16 {
    match kind {
        Kind::Area | Kind::OtherGroup => 42,
        Kind::Cover | Kind::NoData | Kind::Both => 302,
    }
}

fn group(kind: Kind) -> u8 {
    match kind {
        Kind::Area | Kind::Both => 1,
        Kind::OtherGroup | Kind::Cover | Kind::NoData => 2,
    }
}

/// The field of attributes: the category of coverage, or none.
fn attributes(kind: Kind) -> &'static [u8] {
    match kind {
        Kind::Area | Kind::OtherGroup => b"\x1e",
        Kind::Cover | Kind::Both => b"\x12\x001\x1f\x1e",
        Kind::NoData => b"\x12\x002\x1f\x1e",
    }
}

/// A data record that is being put together: its directory and its fields.
#[derive(Drop)]
struct Record {
    directory: String,
    fields: Vec<u8>,
}

impl Record {
    fn new(alloc: Global) -> Result<Record, AllocError> {
        let mut record = Record {
            directory: String::new(alloc),
            fields: Vec::new(alloc),
        };
        record.add("0001", b"\x01\x00\x1e")?;
        Ok(record)
    }

    fn add(&mut self, tag: &str, field: &[u8]) -> Result<(), AllocError> {
        let length = field.len();
        let position = self.fields.len();
        write!(self.directory, "{tag}{length:05}{position:05}")?;
        self.fields.extend_from_slice(field)?;
        Ok(())
    }

    /// Appends it, with its leader.
    fn write(&self, alloc: Global, out: &mut Vec<u8>) -> Result<(), AllocError> {
        let base = self.directory.as_str().len().saturating_add(25);
        let length = self.fields.len().saturating_add(base);
        let mut leader = String::new(alloc);
        write!(leader, "{length:05} D     {base:05}   5504")?;
        out.extend_from_slice(leader.as_bytes())?;
        out.extend_from_slice(self.directory.as_bytes())?;
        out.push(30)?;
        out.extend_from_slice(&self.fields)?;
        Ok(())
    }
}

/// The bytes of a field that is being put together.
#[derive(Drop)]
struct Field {
    bytes: Vec<u8>,
}

impl Field {
    fn new(alloc: Global) -> Field {
        Field {
            bytes: Vec::new(alloc),
        }
    }

    fn byte(&mut self, value: u8) -> Result<(), AllocError> {
        self.bytes.push(value)?;
        Ok(())
    }

    fn half(&mut self, value: u16) -> Result<(), AllocError> {
        self.bytes.extend_from_slice(&value.to_le_bytes())
    }

    fn word(&mut self, value: u32) -> Result<(), AllocError> {
        self.bytes.extend_from_slice(&value.to_le_bytes())
    }

    fn point(&mut self, p: Point) -> Result<(), AllocError> {
        self.bytes.extend_from_slice(&p.y.to_le_bytes())?;
        self.bytes.extend_from_slice(&p.x.to_le_bytes())
    }

    /// Its end.
    fn end(&mut self) -> Result<(), AllocError> {
        self.byte(30)
    }
}

/// The field that names a spatial record.
fn spatial_name(alloc: Global, rcnm: u8, rcid: u32) -> Result<Field, AllocError> {
    let mut name = Field::new(alloc);
    name.byte(rcnm)?;
    name.word(rcid)?;
    name.half(1)?;
    name.byte(1)?;
    name.end()?;
    Ok(name)
}

fn points(alloc: Global, list: &[Point]) -> Result<Field, AllocError> {
    let mut field = Field::new(alloc);
    for p in list {
        field.point(*p)?;
    }
    field.end()?;
    Ok(field)
}

/// The pointers of an edge to its one node, as its first and as its last.
fn both_ends(alloc: Global, rcid: u32) -> Result<Field, AllocError> {
    let mut field = Field::new(alloc);
    for topi in [1, 2] {
        field.byte(120)?;
        field.word(rcid)?;
        field.half(0xffff)?;
        field.byte(topi)?;
        field.byte(255)?;
    }
    field.end()?;
    Ok(field)
}

fn feature_name(alloc: Global, kind: Kind, rcid: u32) -> Result<Field, AllocError> {
    let mut field = Field::new(alloc);
    field.byte(100)?;
    field.word(rcid)?;
    field.byte(3)?;
    field.byte(group(kind))?;
    field.half(object(kind))?;
    field.half(1)?;
    field.byte(1)?;
    field.end()?;
    Ok(field)
}

fn object_name(alloc: Global, rcid: u32) -> Result<Field, AllocError> {
    let mut field = Field::new(alloc);
    field.half(7)?;
    field.word(rcid)?;
    field.half(1)?;
    field.end()?;
    Ok(field)
}

fn border(alloc: Global, rcid: u32, times: usize) -> Result<Field, AllocError> {
    let mut field = Field::new(alloc);
    for _ in 0..times {
        field.byte(130)?;
        field.word(rcid)?;
        field.byte(1)?;
        field.byte(1)?;
        field.byte(255)?;
    }
    field.end()?;
    Ok(field)
}

/// The records of a cell that rings are put into.
#[derive(Drop)]
pub struct Draft {
    count: u32,
    nodes: Vec<u8>,
    edges: Vec<u8>,
    features: Vec<u8>,
}

impl Draft {
    pub fn new(alloc: Global) -> Draft {
        Draft {
            count: 0,
            nodes: Vec::new(alloc),
            edges: Vec::new(alloc),
            features: Vec::new(alloc),
        }
    }

    /// Adds a feature whose pointers name one edge so many times: from a point along others and back to it.
    pub fn add(
        &mut self,
        alloc: Global,
        kind: Kind,
        first: Point,
        inner: &[Point],
        times: usize,
    ) -> Result<(), AllocError> {
        self.count = self.count.saturating_add(1);
        let rcid = self.count;
        let mut node = Record::new(alloc)?;
        node.add("VRID", &spatial_name(alloc, 120, rcid)?.bytes)?;
        node.add("SG2D", &points(alloc, &[first])?.bytes)?;
        node.write(alloc, &mut self.nodes)?;
        let mut edge = Record::new(alloc)?;
        edge.add("VRID", &spatial_name(alloc, 130, rcid)?.bytes)?;
        edge.add("VRPT", &both_ends(alloc, rcid)?.bytes)?;
        edge.add("SG2D", &points(alloc, inner)?.bytes)?;
        edge.write(alloc, &mut self.edges)?;
        let mut feature = Record::new(alloc)?;
        feature.add("FRID", &feature_name(alloc, kind, rcid)?.bytes)?;
        feature.add("FOID", &object_name(alloc, rcid)?.bytes)?;
        feature.add("ATTF", attributes(kind))?;
        feature.add("FSPT", &border(alloc, rcid, times)?.bytes)?;
        feature.write(alloc, &mut self.features)
    }

    /// The bytes of the cell. What is said of the data set is that of the square in testing_cells, but for its numbers of
    /// nodes, edges and features.
    pub fn file(&self, alloc: Global) -> Result<Vec<u8>, AllocError> {
        let mut records = Vec::new(alloc);
        records.extend_from_slice(&SQUARE[..128])?;
        records.extend_from_slice(&self.count.to_le_bytes())?;
        records.extend_from_slice(&[0; 16])?;
        records.extend_from_slice(&self.count.to_le_bytes())?;
        records.extend_from_slice(&self.count.to_le_bytes())?;
        records.extend_from_slice(&SQUARE[156..243])?;
        records.extend_from_slice(&self.nodes)?;
        records.extend_from_slice(&self.edges)?;
        records.extend_from_slice(&self.features)?;
        file_of(alloc, &records)
    }
}
