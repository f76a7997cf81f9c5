// Laws of triangulations by their half-edges: flips, and the triangles into which a polygon is cut, ear by ear. There is no code here.
#![tactic(auto)]
