// The regular octagon in twelve directions, in each of which it is two cylinders.

use crate::running::expect_lines;

const OCTAGON: &str =
    "polygon 1,0 1/2r,1/2r 0,1 -1/2r,1/2r -1,0 -1/2r,-1/2r 0,-1 1/2r,-1/2r\nglue 0.0 0.4\nglue 0.1 0.5\nglue 0.2 0.6\nglue 0.3 0.7\n";

// Commands, answers. The first four directions are those of sides, and so turned by multiples of 45 degrees: by hand the one
// cylinder is the rectangle between two sides, 1 + √2 around and 1 high, and the other one is both trapezoids beside it, 2 + √2
// around and half of √2 high. The next two are those of short diagonals: by hand half of √2 of the area is in the cylinder of two
// triangles at the ends. The others were worked out by another program. There are three connections in each, since three
// directions leave the one vertex, whose cone angle is 6π, along each vector.
static DIRECTIONS: [(&str, &str); 12] = [
    (
        "flow 1,0\n",
        "flow 1,0 steps 1 connections 3 components 2\nconnection 0.0 1,0\nconnection 0.6 1+1r,0\nconnection 0.7 1+1r,0\ncylinder base 0 width 1/2r holonomy 2+1r,0 square 6+4r height-square 1/2 area 1+1r\ncylinder base 1/2r width 1 holonomy 1+1r,0 square 3+2r height-square 1 area 1+1r\n",
    ),
    (
        "flow 0,1\n",
        "flow 0,1 steps 1 connections 3 components 2\nconnection 0.2 0,1\nconnection 0.0 0,1+1r\nconnection 0.1 0,1+1r\ncylinder base 0 width 1/2r holonomy 0,2+1r square 6+4r height-square 1/2 area 1+1r\ncylinder base 1/2r width 1 holonomy 0,1+1r square 3+2r height-square 1 area 1+1r\n",
    ),
    (
        "flow 1,1\n",
        "flow 1,1 steps 1 connections 3 components 2\nconnection 0.1 1/2r,1/2r\nconnection 0.0 1+1/2r,1+1/2r\nconnection 0.7 1+1/2r,1+1/2r\ncylinder base 0 width 1 holonomy 1+1r,1+1r square 6+4r height-square 1/2 area 1+1r\ncylinder base 1 width 1r holonomy 1+1/2r,1+1/2r square 3+2r height-square 1 area 1+1r\n",
    ),
    (
        "flow -1,1\n",
        "flow -1,1 steps 1 connections 3 components 2\nconnection 0.3 -1/2r,1/2r\nconnection 0.1 -1-1/2r,1+1/2r\nconnection 0.2 -1-1/2r,1+1/2r\ncylinder base 0 width 1 holonomy -1-1r,1+1r square 6+4r height-square 1/2 area 1+1r\ncylinder base 1 width 1r holonomy -1-1/2r,1+1/2r square 3+2r height-square 1 area 1+1r\n",
    ),
    (
        "flow 1+1r,1\n",
        "flow 1+1r,1 steps 2 connections 3 components 2\nconnection 0.0 1+1/2r,1/2r\nconnection 0.6 1+1/2r,1/2r\nconnection 0.7 1+1r,1\ncylinder base 0 width 1 holonomy 1+1/2r,1/2r square 2+1r height-square 1/2-1/4r area 1/2r\ncylinder base 1 width 1+1r holonomy 2+3/2r,1+1/2r square 10+7r height-square 1/2+1/4r area 2+3/2r\n",
    ),
    (
        "flow 1,1+1r\n",
        "flow 1,1+1r steps 2 connections 3 components 2\nconnection 0.1 1/2r,1+1/2r\nconnection 0.7 1/2r,1+1/2r\nconnection 0.0 1,1+1r\ncylinder base 0 width 1 holonomy 1/2r,1+1/2r square 2+1r height-square 1/2-1/4r area 1/2r\ncylinder base 1 width 1+1r holonomy 1+1/2r,2+3/2r square 10+7r height-square 1/2+1/4r area 2+3/2r\n",
    ),
    (
        "flow 1,2\n",
        "flow 1,2 steps 16 connections 3 components 2\nconnection 0.7 3+2r,6+4r\nconnection 0.0 7+5r,14+10r\nconnection 0.1 7+5r,14+10r\ncylinder base 0 width -2+3/2r holonomy 10+7r,20+14r square 990+700r height-square 17/10-6/5r area 1+1r\ncylinder base -2+3/2r width 3-2r holonomy 7+5r,14+10r square 495+350r height-square 17/5-12/5r area 1+1r\n",
    ),
    (
        "flow 2,1\n",
        "flow 2,1 steps 16 connections 3 components 2\nconnection 0.0 6+4r,3+2r\nconnection 0.6 14+10r,7+5r\nconnection 0.7 14+10r,7+5r\ncylinder base 0 width -2+3/2r holonomy 20+14r,10+7r square 990+700r height-square 17/10-6/5r area 1+1r\ncylinder base -2+3/2r width 3-2r holonomy 14+10r,7+5r square 495+350r height-square 17/5-12/5r area 1+1r\n",
    ),
    (
        "flow 3,1r\n",
        "flow 3,1r steps 30 connections 3 components 2\nconnection 0.7 21+15r,10+7r\nconnection 0.0 51+36r,24+17r\nconnection 0.6 51+36r,24+17r\ncylinder base 0 width -7+5r holonomy 51+36r,24+17r square 6347+4488r height-square 9-70/11r area 1+1r\ncylinder base -7+5r width 5-7/2r holonomy 72+51r,34+24r square 12694+8976r height-square 9/2-35/11r area 1+1r\n",
    ),
    (
        "flow -1,-1+1r\n",
        "flow -1,-1+1r steps 2 connections 3 components 2\nconnection 0.1 -1-1/2r,1/2r\nconnection 0.3 -1-1/2r,1/2r\nconnection 0.2 -1-1r,1\ncylinder base 0 width -1+1r holonomy -1-1/2r,1/2r square 2+1r height-square 1/2-1/4r area 1/2r\ncylinder base -1+1r width 1 holonomy -2-3/2r,1+1/2r square 10+7r height-square 1/2+1/4r area 2+3/2r\n",
    ),
    (
        "flow 5,3\n",
        "flow 5,3 steps 20 connections 3 components 2\nconnection 0.7 10+15/2r,6+9/2r\nconnection 0.0 25+35/2r,15+21/2r\nconnection 0.6 25+35/2r,15+21/2r\ncylinder base 0 width -4+3r holonomy 25+35/2r,15+21/2r square 1683+1190r height-square 1-12/17r area 1+1r\ncylinder base -4+3r width 3-2r holonomy 35+25r,21+15r square 3366+2380r height-square 1/2-6/17r area 1+1r\n",
    ),
    (
        "flow 1,1r\n",
        "flow 1,1r steps 8 connections 3 components 2\nconnection 0.7 1+1r,2+1r\nconnection 0.0 3+2r,4+3r\nconnection 0.1 3+2r,4+3r\ncylinder base 0 width 1-1/2r holonomy 4+3r,6+4r square 102+72r height-square 1/2-1/3r area 1+1r\ncylinder base 1-1/2r width -1+1r holonomy 3+2r,4+3r square 51+36r height-square 1-2/3r area 1+1r\n",
    ),
];

#[test]
fn octagon(rt: HostRuntime) {
    for (commands, answer) in DIRECTIONS.iter() {
        expect_lines(&rt, rt.alloc(), 2, &[OCTAGON], commands, answer);
    }
}
