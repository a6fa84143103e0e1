// The depths of the sample.
ghost use Rattle.std.specs.Prelude.{◌≡◌, ◌+◌, ◌*◌, ◌<◌, ◌≤◌, ◌&&◌, map, nat_le, IfOk};
ghost use Rattle.std.specs.List.{range_with_len};
ghost use Rattle.chart_sample.specs.Depths.{bare, mixed, node_depth, noise_at, sample_depth, seed_of};

use std::alloc::{AllocError, Global};

// One number of 64 bits out of three.
fn seed(n: u32, row: u32, col: u32) -> u64
    ensures { result ≡ seed_of n row col }
{
    let n = (n as u64).wrapping_mul(6_364_136_223_846_793_005);
    let row = (row as u64).wrapping_mul(1_442_695_040_888_963_407);
    let col = (col as u64).wrapping_mul(2_862_933_555_777_941_757);
    n.wrapping_add(row).wrapping_add(col)
}

// The bits of a number mixed.
fn mix(seed: u64) -> u64
    ensures { result ≡ mixed seed }
{
    (seed ^ (seed >> 33)).wrapping_mul(18_397_679_294_719_823_053)
}

// The noise at a node, in millimetres.
fn noise(n: u32, row: u32, col: u32) -> u32
    ensures value { result ≡ noise_at n row col }
    ensures small { result < 2000 }
{
    ((mix(seed(n, row, col)) >> 40) % 2000) as u32
}

// Whether a node has no data.
fn is_bare(row: u32, col: u32) -> bool
    ensures { result ≡ bare row col }
{
    100 <= row && row <= 119 && 200 <= col && col <= 239
}

// The depth of a node in millimetres below datum, if it has one.
fn depth(n: u32, row: u32, col: u32) -> Option<i32>
    requires row { row ≤ 1024 }
    requires col { col ≤ 1024 }
    ensures { result ≡ sample_depth n row col }
{
    if is_bare(row, col) {
        return None;
    }
    let raised = 90 * col + 20 * row + noise(n, row, col);
    Some(raised as i32 - 1000)
}

/// The depths of so many rows of so many nodes, row by row.
pub(crate) fn depths(
    alloc: Global,
    n: u32,
    rows: u32,
    cols: u32,
) -> Result<Vec<Option<i32>>, AllocError>
    requires rows { rows ≤ 1025 }
    requires some { 1 ≤ cols }
    requires cols { cols ≤ 1025 }
    ensures { IfOk result (λ v. v.items ≡ map (node_depth n cols) (range_with_len 0 (rows * cols))) }
{
    let nodes = rows * cols;
    let mut depths = Vec::with_capacity(alloc, nodes as usize)?;
    for node in 0..nodes {
        depths.push(depth(n, node / cols, node % cols))?;
    }
    Ok(depths)
}
