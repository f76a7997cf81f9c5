// Corners, their order, and the sites at a corner.
use fs_plane::{Corner, Site};
use std::cmp::Ordering;

// The polygons and sides of two corners, and how the corners compare.
static ORDERS: [((u16, u16), (u16, u16), Ordering); 6] = [
    ((3, 5), (3, 5), Ordering::Equal),
    ((3, 4), (3, 5), Ordering::Less),
    ((3, 5), (3, 4), Ordering::Greater),
    ((3, 5), (4, 5), Ordering::Less),
    ((0, 1), (1, 0), Ordering::Less),
    ((1, 0), (0, 65535), Ordering::Greater),
];

#[test]
fn order_by_polygon_then_side(rt: HostRuntime) {
    for (row, (a, b, expected)) in ORDERS.iter().enumerate() {
        let order = Corner::new(a.0, a.1).cmp(&Corner::new(b.0, b.1));
        assert!(rt; order == *expected, "row {row}");
    }
}

#[test]
fn sites_at_a_corner(rt: HostRuntime) {
    let (polygon, side, place) = (7, 65535, 4);
    let corner = Corner::new(7, 65535);
    assert!(rt; corner.polygon == 7 && corner.side == 65535);
    let scaling = Site::Scale {
        polygon,
        side,
        place,
    };
    assert!(rt; Site::scaling(corner, place) == scaling);
    let closing = Site::Close {
        polygon,
        side,
        place,
    };
    assert!(rt; Site::closing(corner, place) == closing);
    let convexity = Site::Corner {
        polygon,
        side,
        place,
    };
    assert!(rt; Site::convexity(corner, place) == convexity);
    let triangle = Site::Area {
        polygon,
        corner: side,
        place,
    };
    assert!(rt; Site::triangle(corner, place) == triangle);
    let measuring = Site::Letter {
        polygon,
        side,
        place,
    };
    assert!(rt; Site::measuring(corner, place) == measuring);
    let returning = Site::Shift {
        polygon,
        side,
        place,
    };
    assert!(rt; Site::returning(corner, place) == returning);
}
