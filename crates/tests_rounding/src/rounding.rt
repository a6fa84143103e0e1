// Rounding towards shoal, discs and the raster of positions, by worked values.
use depth_grid::{Radii, Reach, snap};
use depth_rounding::{Bands, Levels, shoal};

#[test]
fn depths_are_rounded_towards_shoal(rt: HostRuntime) {
    let bands = Bands::usual();
    for (mm, wanted) in [
        (20999i32, 209i32),
        (21400, 210),
        (30999, 305),
        (31999, 310),
        (-350, -4),
        (0, 0),
        (-12_000_000, -120_000),
        (12_000_000, 120_000),
    ] {
        if -12_000_000 <= mm && mm <= 12_000_000 {
            assert_eq!(rt; shoal(&bands, mm), wanted, "{mm}");
        }
    }
}

#[test]
fn a_step_begins_at_its_depth(rt: HostRuntime) {
    let bands = Bands::new(&[15], &[2, 5]);
    assert_eq!(rt; shoal(&bands, 1499), 14);
    assert_eq!(rt; shoal(&bands, 1500), 15);
}

#[test]
fn a_level_begins_its_band(rt: HostRuntime) {
    let levels = Levels::new(&[-5, 20, 50]);
    for (c, band) in [
        (-6i32, 0u32),
        (-5, 1),
        (19, 1),
        (20, 2),
        (50, 3),
        (120_000, 3),
    ] {
        assert_eq!(rt; levels.band(c), band, "{c}");
    }
    assert_eq!(rt; levels.count(), 3);
    assert_eq!(rt; levels.level(2), 20);
    assert_eq!(rt; levels.range(0, -30, 49), (-30, -5));
    assert_eq!(rt; levels.range(2, -30, 49), (20, 50));
    assert_eq!(rt; levels.range(3, -30, 50), (50, 51));
    assert_eq!(rt; levels.range(3, -30, 90), (50, 90));
}

#[test]
fn positions_snap_upwards_at_ties(rt: HostRuntime) {
    // Doubled units of 10^-24 degree; a ten-millionth of a degree has 10^17 of them.
    let unit = 200_000_000_000_000_000i128;
    for (units, wanted) in [
        (16i128, Some(32i32)),
        (-16, Some(0)),
        (15, Some(0)),
        (48, Some(64)),
        (1_800_000_015, Some(1_800_000_000)),
        (1_800_000_016, None),
        (-1_800_000_016, Some(-1_800_000_000)),
        (-1_800_000_017, None),
    ] {
        if -2_000_000_000 <= units && units <= 2_000_000_000 {
            assert_eq!(rt; snap(units * unit), wanted, "{units}");
        }
    }
}

#[test]
fn a_disc_has_its_rim(rt: HostRuntime) {
    let reach = Reach {
        aspect: 500,
        radius: 2000,
    };
    assert!(rt; reach.has(2, 0) && reach.has(-2, 0) && reach.has(0, 4) && reach.has(0, -4));
    assert!(rt; !reach.has(3, 0) && !reach.has(0, 5) && !reach.has(2, 1) && reach.has(1, 3));
    let mut radius = [0; 21];
    radius[0] = 1000;
    radius[2] = 3000;
    let each = Radii {
        aspect: 700,
        count: 3,
        radius,
    };
    assert_eq!(rt; each.reach(2).radius, 3000);
    let one = Radii {
        aspect: 700,
        count: 1,
        radius,
    };
    assert_eq!(rt; one.reach(2).radius, 1000);
    assert_eq!(rt; one.reach(2).aspect, 700);
}
