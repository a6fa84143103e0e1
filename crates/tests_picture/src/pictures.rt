// The whole pictures of small cells, worked out by hand and by a drawing of its own.
use cell_reader::read_cell;
use chart_picture::picture;
use std::alloc::Global;
use std::process::Abort;
use std::test::Fail;
use testing_cells::{DIVIDED, SQUARE, file_of};

// A square of 32,000 units from 0 0, 10 m deep and more, with a sounding of 10 m in its north-west.
const SQUARE_PICTURE: &[u8] = b"\
<svg xmlns=\"http://www.w3.org/2000/svg\" width=\"456\" height=\"366\" viewBox=\"-2600 -600 15200 12200\">\n\
<style>svg{background:#ffffff}path{fill-rule:evenodd;stroke-linejoin:round}.c,.b{fill:none;stroke:#7d898c;stroke-width:26}.b{stroke:#07070a}text{font:400px sans-serif;text-anchor:middle;fill:#07070a}.d{font-size:280px}.u{text-decoration:underline}.w{text-anchor:end}.e{text-anchor:start}</style>\n\
<rect width=\"10000\" height=\"10000\" fill=\"#a3b4b7\"/>\n\
<path fill=\"#e0f0fa\" d=\"M0 10000L0 0L10000 0L10000 10000L0 10000\"><title>depth area, 10 m to 10.1 m</title></path>\n\
<rect class=\"b\" width=\"10000\" height=\"10000\"/>\n\
<text class=\"w\" x=\"-200\" y=\"400\">0&#176;00.19'N</text>\n\
<text class=\"w\" x=\"-200\" y=\"10000\">0&#176;00.00'N</text>\n\
<text class=\"w\" x=\"0\" y=\"10600\">0&#176;00.00'E</text>\n\
<text class=\"e\" x=\"10000\" y=\"10600\">0&#176;00.19'E</text>\n\
<path class=\"b\" d=\"M0 10800H2812\"/>\n\
<text class=\"e\" x=\"0\" y=\"11400\">100 m</text>\n\
<text x=\"0\" y=\"140\">10</text>\n\
</svg>\n\
";

// The same square divided by a contour: the eastern area of 5 m to 6 m, then the western one of 4 m to 5 m, which is shoaler,
// though it stands first in the cell. As bench/picture_peer draws it.
const DIVIDED_PICTURE: &[u8] = b"\
<svg xmlns=\"http://www.w3.org/2000/svg\" width=\"456\" height=\"366\" viewBox=\"-2600 -600 15200 12200\">\n\
<style>svg{background:#ffffff}path{fill-rule:evenodd;stroke-linejoin:round}.c,.b{fill:none;stroke:#7d898c;stroke-width:26}.b{stroke:#07070a}text{font:400px sans-serif;text-anchor:middle;fill:#07070a}.d{font-size:280px}.u{text-decoration:underline}.w{text-anchor:end}.e{text-anchor:start}</style>\n\
<rect width=\"10000\" height=\"10000\" fill=\"#a3b4b7\"/>\n\
<path fill=\"#c4e0f5\" d=\"M5000 0L10000 0L10000 10000L5000 10000L5000 5000L5000 0\"><title>depth area, 5 m to 6 m</title></path>\n\
<path fill=\"#98c5f2\" d=\"M5000 10000L0 10000L0 0L5000 0L5000 5000L5000 10000\"><title>depth area, 4 m to 5 m</title></path>\n\
<path class=\"c\" d=\"M5000 10000L5000 5000L5000 0\"><title>depth contour, 5 m</title></path>\n\
<rect class=\"b\" width=\"10000\" height=\"10000\"/>\n\
<text class=\"w\" x=\"-200\" y=\"400\">0&#176;00.19'N</text>\n\
<text class=\"w\" x=\"-200\" y=\"10000\">0&#176;00.00'N</text>\n\
<text class=\"w\" x=\"0\" y=\"10600\">0&#176;00.00'E</text>\n\
<text class=\"e\" x=\"10000\" y=\"10600\">0&#176;00.19'E</text>\n\
<path class=\"b\" d=\"M0 10800H2812\"/>\n\
<text class=\"e\" x=\"0\" y=\"11400\">100 m</text>\n\
<text x=\"0\" y=\"140\">4</text>\n\
</svg>\n\
";

// A depth area over the whole earth, from 180 degrees west and 90 south, which dries by 1.5 m; a drying height of 0.3 m in
// 0 0, and a sounding of 10.5 m in 45 south 90 east. A degree of longitude is as wide as one of latitude, since the middle
// is the equator.
const EARTH: [u8; 962] = *b"\
00161 D     00067   550400010000300000DSID0005500003DSSI0003600058\x1e\x01\x00\x1e\x0a\x01\x00\x00\x00\x01\x05XX1EARTH.000\x1f1\x1f0\x1f202401312024013103.1\x01\x1f2.0\x1f\x01\x07\x00\x1f\x1e\x02\x00\x00\x00\x00\x00\x00\x00\x00\x00\x00\x00\x00\x00\x00\x03\x00\x00\x00\x01\x00\x00\x00\x01\x00\x00\x00\x01\x00\x00\x00\x00\x00\x00\x00\x1e\
00082 D     00053   550400010000300000DSPM0002600003\x1e\x02\x00\x1e\x14\x01\x00\x00\x00\x02\x03\x17\x80\x96\x98\x00\x01\x01\x01\x01\x80\x96\x98\x00\x0a\x00\x00\x00\x1f\x1e\
00104 D     00067   550400010000300000VRID0000900003SG3D0002500012\x1e\x03\x00\x1en\x01\x00\x00\x00\x01\x00\x01\x1e\x00\x00\x00\x00\x00\x00\x00\x00\xfd\xff\xff\xff\x80\x8b-\xe5\x00\xe9\xa45i\x00\x00\x00\x1e\
00088 D     00067   550400010000300000VRID0000900003SG2D0000900012\x1e\x04\x00\x1ex\x01\x00\x00\x00\x01\x00\x01\x1e\x00\x17[\xca\x00.\xb6\x94\x1e\
00137 D     00081   550400010000300000VRID0000900003VRPT0001900012SG2D0002500031\x1e\x05\x00\x1e\x82\x01\x00\x00\x00\x01\x00\x01\x1ex\x01\x00\x00\x00\xff\xff\x01\xffx\x01\x00\x00\x00\xff\xff\x02\xff\x1e\x00\xe9\xa45\x00.\xb6\x94\x00\xe9\xa45\x00\xd2Ik\x00\x17[\xca\x00\xd2Ik\x1e\
00141 D     00095   550400010000300000FRID0001300003FOID0000900016ATTF0001200025FSPT0000900037\x1e\x06\x00\x1ed\x01\x00\x00\x00\x03\x01*\x00\x01\x00\x01\x1e\x07\x00\x01\x00\x00\x00\x01\x00\x1eW\x00-1.5\x1fX\x000\x1f\x1e\x82\x01\x00\x00\x00\x01\x01\x02\x1e\
00134 D     00095   550400010000300000FRID0001300003FOID0000900016ATTF0000500025FSPT0000900030\x1e\x07\x00\x1ed\x02\x00\x00\x00\x03\x02.\x01\x01\x00\x01\x1e\x07\x00\x02\x00\x00\x00\x01\x00\x1e\x12\x001\x1f\x1e\x82\x01\x00\x00\x00\x01\x01\x02\x1e\
00115 D     00081   550400010000300000FRID0001300003FOID0000900016FSPT0000900025\x1e\x08\x00\x1ed\x03\x00\x00\x00\x01\x02\x81\x00\x01\x00\x01\x1e\x07\x00\x03\x00\x00\x00\x01\x00\x1en\x01\x00\x00\x00\xff\xff\xff\x1e";

const EARTH_PICTURE: &[u8] = b"\
<svg xmlns=\"http://www.w3.org/2000/svg\" width=\"6156\" height=\"3066\" viewBox=\"-130 -30 10260 5110\">\n\
<style>svg{background:#ffffff}path{fill-rule:evenodd;stroke-linejoin:round}.c,.b{fill:none;stroke:#7d898c;stroke-width:2}.b{stroke:#07070a}text{font:20px sans-serif;text-anchor:middle;fill:#07070a}.d{font-size:14px}.u{text-decoration:underline}.w{text-anchor:end}.e{text-anchor:start}</style>\n\
<rect width=\"10000\" height=\"5000\" fill=\"#a3b4b7\"/>\n\
<path fill=\"#83b295\" d=\"M0 5000L0 0L10000 0L10000 5000L0 5000\"><title>depth area, -1.5 m to 0 m</title></path>\n\
<rect class=\"b\" width=\"10000\" height=\"5000\"/>\n\
<text class=\"w\" x=\"-10\" y=\"20\">90&#176;00.00'N</text>\n\
<text class=\"w\" x=\"-10\" y=\"5000\">90&#176;00.00'S</text>\n\
<text class=\"w\" x=\"0\" y=\"5030\">180&#176;00.00'W</text>\n\
<text class=\"e\" x=\"10000\" y=\"5030\">180&#176;00.00'E</text>\n\
<path class=\"b\" d=\"M0 5040H249\"/>\n\
<text class=\"e\" x=\"0\" y=\"5070\">1000 km</text>\n\
<text class=\"u\" x=\"5000\" y=\"2507\">0<tspan class=\"d\" dy=\"6\">3</tspan></text>\n\
<text x=\"7500\" y=\"3757\">10<tspan class=\"d\" dy=\"6\">5</tspan></text>\n\
</svg>\n\
";

// A depth area, a contour with no value and a sounding of 0 m, all in the one point 5 east 53 north.
const POINT: [u8; 951] = *b"\
00161 D     00067   550400010000300000DSID0005500003DSSI0003600058\x1e\x01\x00\x1e\x0a\x01\x00\x00\x00\x01\x05XX1POINT.000\x1f1\x1f0\x1f202401312024013103.1\x01\x1f2.0\x1f\x01\x07\x00\x1f\x1e\x02\x00\x00\x00\x00\x00\x00\x00\x00\x00\x00\x00\x00\x00\x00\x03\x00\x00\x00\x01\x00\x00\x00\x01\x00\x00\x00\x01\x00\x00\x00\x00\x00\x00\x00\x1e\
00082 D     00053   550400010000300000DSPM0002600003\x1e\x02\x00\x1e\x14\x01\x00\x00\x00\x02\x03\x17\xf4\x01\x00\x00\x01\x01\x01\x01\x80\x96\x98\x00\x0a\x00\x00\x00\x1f\x1e\
00092 D     00067   550400010000300000VRID0000900003SG3D0001300012\x1e\x03\x00\x1en\x01\x00\x00\x00\x01\x00\x01\x1e\x80(\x97\x1f\x80\xf0\xfa\x02\x00\x00\x00\x00\x1e\
00088 D     00067   550400010000300000VRID0000900003SG2D0000900012\x1e\x04\x00\x1ex\x01\x00\x00\x00\x01\x00\x01\x1e\x80(\x97\x1f\x80\xf0\xfa\x02\x1e\
00137 D     00081   550400010000300000VRID0000900003VRPT0001900012SG2D0002500031\x1e\x05\x00\x1e\x82\x01\x00\x00\x00\x01\x00\x01\x1ex\x01\x00\x00\x00\xff\xff\x01\xffx\x01\x00\x00\x00\xff\xff\x02\xff\x1e\x80(\x97\x1f\x80\xf0\xfa\x02\x80(\x97\x1f\x80\xf0\xfa\x02\x80(\x97\x1f\x80\xf0\xfa\x02\x1e\
00143 D     00095   550400010000300000FRID0001300003FOID0000900016ATTF0001400025FSPT0000900039\x1e\x06\x00\x1ed\x01\x00\x00\x00\x03\x01*\x00\x01\x00\x01\x1e\x07\x00\x01\x00\x00\x00\x01\x00\x1eW\x0030\x1fX\x004.5e1\x1f\x1e\x82\x01\x00\x00\x00\x01\x01\x02\x1e\
00133 D     00095   550400010000300000FRID0001300003FOID0000900016ATTF0000400025FSPT0000900029\x1e\x07\x00\x1ed\x02\x00\x00\x00\x02\x02+\x00\x01\x00\x01\x1e\x07\x00\x02\x00\x00\x00\x01\x00\x1e\xae\x00\x1f\x1e\x82\x01\x00\x00\x00\xff\xff\xff\x1e\
00115 D     00081   550400010000300000FRID0001300003FOID0000900016FSPT0000900025\x1e\x08\x00\x1ed\x03\x00\x00\x00\x01\x02\x81\x00\x01\x00\x01\x1e\x07\x00\x03\x00\x00\x00\x01\x00\x1en\x01\x00\x00\x00\xff\xff\xff\x1e";

const POINT_PICTURE: &[u8] = b"\
<svg xmlns=\"http://www.w3.org/2000/svg\" width=\"156\" height=\"66\" viewBox=\"-2600 -600 5200 2200\">\n\
<style>svg{background:#ffffff}path{fill-rule:evenodd;stroke-linejoin:round}.c,.b{fill:none;stroke:#7d898c;stroke-width:26}.b{stroke:#07070a}text{font:400px sans-serif;text-anchor:middle;fill:#07070a}.d{font-size:280px}.u{text-decoration:underline}.w{text-anchor:end}.e{text-anchor:start}</style>\n\
<rect width=\"0\" height=\"0\" fill=\"#a3b4b7\"/>\n\
<path fill=\"#ffffff\" d=\"M0 0L0 0L0 0L0 0L0 0\"><title>depth area, 30 m to 4.5e1 m</title></path>\n\
<path class=\"c\" d=\"M0 0L0 0L0 0L0 0L0 0\"><title>depth contour, ? m</title></path>\n\
<rect class=\"b\" width=\"0\" height=\"0\"/>\n\
<text class=\"w\" x=\"-200\" y=\"400\">53&#176;00.00'N</text>\n\
<text class=\"w\" x=\"-200\" y=\"0\">53&#176;00.00'N</text>\n\
<text class=\"w\" x=\"0\" y=\"600\">5&#176;00.00'E</text>\n\
<text class=\"e\" x=\"0\" y=\"600\">5&#176;00.00'E</text>\n\
<text x=\"0\" y=\"140\">0</text>\n\
</svg>\n\
";

// Across both signs: an area whose depths are `</svg><script>` and `"&<>` with a byte 0, the same as land, and a contour of
// `1e1</title>`, in a cell of the name `</svg><script>alert(1)</script>`.
const HOSTILE: [u8; 1108] = *b"\
00180 D     00067   550400010000300000DSID0007400003DSSI0003600077\x1e\x01\x00\x1e\x0a\x01\x00\x00\x00\x01\x05</svg><script>alert(1)</script>\x1f1\x1f0\x1f202401312024013103.1\x01\x1f2.0\x1f\x01\x07\x00\x1f\x1e\x02\x00\x00\x00\x00\x00\x00\x00\x00\x00\x00\x00\x00\x00\x00\x04\x00\x00\x00\x01\x00\x00\x00\x01\x00\x00\x00\x01\x00\x00\x00\x00\x00\x00\x00\x1e\
00082 D     00053   550400010000300000DSPM0002600003\x1e\x02\x00\x1e\x14\x01\x00\x00\x00\x02\x03\x17\xe0.\x00\x00\x01\x01\x01\x01\x80\x96\x98\x00\x0a\x00\x00\x00\x1f\x1e\
00092 D     00067   550400010000300000VRID0000900003SG3D0001300012\x1e\x03\x00\x1en\x01\x00\x00\x00\x01\x00\x01\x1e\x00\x00\x00\x00\x00\x00\x00\x00\x12\x00\x00\x00\x1e\
00088 D     00067   550400010000300000VRID0000900003SG2D0000900012\x1e\x04\x00\x1ex\x01\x00\x00\x00\x01\x00\x01\x1e\xf0\xd8\xff\xffx\xec\xff\xff\x1e\
00137 D     00081   550400010000300000VRID0000900003VRPT0001900012SG2D0002500031\x1e\x05\x00\x1e\x82\x01\x00\x00\x00\x01\x00\x01\x1ex\x01\x00\x00\x00\xff\xff\x01\xffx\x01\x00\x00\x00\xff\xff\x02\xff\x1e N\x00\x00x\xec\xff\xff N\x00\x00X\x1b\x00\x00\xf0\xd8\xff\xffX\x1b\x00\x00\x1e\
00155 D     00095   550400010000300000FRID0001300003FOID0000900016ATTF0002600025FSPT0000900051\x1e\x06\x00\x1ed\x01\x00\x00\x00\x03\x01*\x00\x01\x00\x01\x1e\x07\x00\x01\x00\x00\x00\x01\x00\x1eW\x00</svg><script>\x1fX\x00\"&<>\x00\x1f\x1e\x82\x01\x00\x00\x00\x01\x01\x02\x1e\
00115 D     00081   550400010000300000FRID0001300003FOID0000900016FSPT0000900025\x1e\x07\x00\x1ed\x02\x00\x00\x00\x03\x01G\x00\x01\x00\x01\x1e\x07\x00\x02\x00\x00\x00\x01\x00\x1e\x82\x01\x00\x00\x00\x01\x01\x02\x1e\
00144 D     00095   550400010000300000FRID0001300003FOID0000900016ATTF0001500025FSPT0000900040\x1e\x08\x00\x1ed\x03\x00\x00\x00\x02\x02+\x00\x01\x00\x01\x1e\x07\x00\x03\x00\x00\x00\x01\x00\x1e\xae\x001e1</title>\x1f\x1e\x82\x01\x00\x00\x00\xff\xff\xff\x1e\
00115 D     00081   550400010000300000FRID0001300003FOID0000900016FSPT0000900025\x1e\x09\x00\x1ed\x04\x00\x00\x00\x01\x02\x81\x00\x01\x00\x01\x1e\x07\x00\x04\x00\x00\x00\x01\x00\x1en\x01\x00\x00\x00\xff\xff\xff\x1e";

const HOSTILE_PICTURE: &[u8] = b"\
<svg xmlns=\"http://www.w3.org/2000/svg\" width=\"276\" height=\"366\" viewBox=\"-2600 -600 9200 12200\">\n\
<style>svg{background:#ffffff}path{fill-rule:evenodd;stroke-linejoin:round}.c,.b{fill:none;stroke:#7d898c;stroke-width:26}.b{stroke:#07070a}text{font:400px sans-serif;text-anchor:middle;fill:#07070a}.d{font-size:280px}.u{text-decoration:underline}.w{text-anchor:end}.e{text-anchor:start}</style>\n\
<rect width=\"4000\" height=\"10000\" fill=\"#a3b4b7\"/>\n\
<path fill=\"#a3b4b7\" d=\"M0 10000L0 0L4000 0L4000 10000L0 10000\"><title>depth area, ? m to ? m</title></path>\n\
<path fill=\"#c9b97a\" d=\"M0 10000L0 0L4000 0L4000 10000L0 10000\"><title>land area</title></path>\n\
<path class=\"c\" d=\"M0 10000L0 0L4000 0L4000 10000L0 10000\"><title>depth contour, ? m</title></path>\n\
<rect class=\"b\" width=\"4000\" height=\"10000\"/>\n\
<text class=\"w\" x=\"-200\" y=\"400\">0&#176;00.12'N</text>\n\
<text class=\"w\" x=\"-200\" y=\"10000\">0&#176;00.06'S</text>\n\
<text class=\"w\" x=\"0\" y=\"10600\">0&#176;00.03'W</text>\n\
<text class=\"e\" x=\"4000\" y=\"10600\">0&#176;00.04'E</text>\n\
<path class=\"b\" d=\"M0 10800H1499\"/>\n\
<text class=\"e\" x=\"0\" y=\"11400\">50 m</text>\n\
<text x=\"1666\" y=\"6806\">1<tspan class=\"d\" dy=\"120\">8</tspan></text>\n\
</svg>\n\
";

// The cell of these data records has this picture.
fn expect(rt: &impl Abort, alloc: Global, records: &[u8], want: &[u8]) -> Result<(), Fail> {
    let file = file_of(alloc, records)?;
    assert!(rt; file.len() < 4_000_000_000);
    let chart = read_cell(alloc, &file).ok().ok_or("no chart")?;
    let text = picture(alloc, &chart)?;
    assert!(rt; text.as_slice() == want);
    Ok(())
}

#[test]
fn pictures_of_small_cells(rt: HostRuntime) -> Result<(), Fail> {
    let a = rt.alloc();
    expect(&rt, a, &SQUARE, SQUARE_PICTURE)?;
    expect(&rt, a, &DIVIDED, DIVIDED_PICTURE)?;
    expect(&rt, a, &EARTH, EARTH_PICTURE)?;
    expect(&rt, a, &POINT, POINT_PICTURE)
}

#[test]
fn pictures_of_hostile_cells(rt: HostRuntime) -> Result<(), Fail> {
    let a = rt.alloc();
    expect(&rt, a, &HOSTILE, HOSTILE_PICTURE)
}
