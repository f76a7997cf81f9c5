// The partners of sides.

ghost use Rattle.std.specs.Prelude.{◌≡◌, ◌≢◌, ◌≤◌, ℕ, List, Some, None, is_some, length, IfOk};
ghost use Rattle.std.specs.List.{AllByRecursion, slice_get};
ghost use Rattle.fs_plane.specs.declared.corners.Corner.{Corner};
ghost use Rattle.fs_plane.specs.Vector.{PlaneVector};
ghost use Rattle.fs_gluing.specs.Limits.{most_polygons, most_sides};
ghost use Rattle.fs_gluing.specs.PartnerTable.{partner_of, HasPlace, HasPlaces};

use crate::sequence::Sequence;
use fs_plane::{Corner, V2};
use std::alloc::{AllocError, Global};
use std::marker::Model;

/// For each side of polygons the side that it is glued to, where it is on a glue line. There are as many
/// places for each polygon as the greatest has sides.
#[derive(Drop)]
pub struct Partners {
    items: Vec<Option<Corner>>,
    width: u16,
}

impl Model for Partners {
    ghost use Rattle.fs_gluing.specs.PartnerTable.{PartnerTable};

    ghost Value = { PartnerTable };

    ghost view = { λ p. record { width = p.width; items = p.items.items } };
}

impl Partners {
    /// No side has a partner.
    pub fn new(alloc: Global, polygons: &Sequence<Sequence<V2>>) -> Result<Partners, AllocError>
        requires few { length polygons.now ≤ most_polygons }
        requires short { AllByRecursion (λ polygon. length polygon ≤ most_sides) polygons.now }
        ensures places { IfOk result (λ partners. HasPlaces polygons.now partners) }
        ensures none { IfOk result (λ partners. (c : Corner) → partner_of partners c ≡ None) }
    {
        let width = most_sides(polygons);
        let mut items = Vec::new(alloc);
        items.resize(polygons.len() * width as usize, None)?;
        Ok(Partners { items, width })
    }

    /// The partner of a side, where it has one.
    pub fn get(&self, c: Corner) -> Option<Corner>
        ensures { result ≡ partner_of self.now c }
    {
        if c.side < self.width {
            let place = c.polygon as usize * self.width as usize + c.side as usize;
            self.items.get(place).copied().unwrap_or(None)
        } else {
            None
        }
    }

    /// Whether a side has a partner.
    pub fn has(&self, c: Corner) -> bool
        ensures { result ≡ is_some (partner_of self.now c) }
    {
        self.get(c).is_some()
    }

    /// Makes a side the partner of another.
    pub fn insert(&mut self, c: Corner, partner: Corner)
        requires { HasPlace self.old c }
        ensures here { partner_of self.new c ≡ Some partner }
        ensures others { (e : Corner) → e ≢ c → partner_of self.new e ≡ partner_of self.old e }
        ensures places { (e : Corner) → HasPlace self.old e → HasPlace self.new e }
    {
        let place = c.polygon as usize * self.width as usize + c.side as usize;
        self.items[place] = Some(partner);
    }
}

// The most sides that a polygon has.
fn most_sides(polygons: &Sequence<Sequence<V2>>) -> u16
    requires short { AllByRecursion (λ polygon. length polygon ≤ most_sides) polygons.now }
    ensures most { (i : ℕ) (polygon : List PlaneVector) → slice_get polygons.now i ≡ Some polygon → length polygon ≤ result }
    ensures few { result ≤ most_sides }
{
    let mut most = 0;
    for polygon in polygons.as_slice() {
        most = most.max(polygon.len() as u16);
    }
    most
}
