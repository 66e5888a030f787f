// Eight bounds that need not be tight: what an octagon is made from.
use std::marker::Model;

#[derive(Clone, Copy)]
pub struct Eight {
    pub x0: i64,
    pub x1: i64,
    pub y0: i64,
    pub y1: i64,
    pub s0: i64,
    pub s1: i64,
    pub d0: i64,
    pub d1: i64,
}

impl Model for Eight {
    ghost use Rattle.plane.specs.Plane.{Bounds};

    ghost Value = { Bounds };

    ghost view = { λ a. record { x0 = a.x0; x1 = a.x1; y0 = a.y0; y1 = a.y1; s0 = a.s0; s1 = a.s1; d0 = a.d0; d1 = a.d1 } };

    ghost inverse = { λ b. record { x0 = b.x0; x1 = b.x1; y0 = b.y0; y1 = b.y1; s0 = b.s0; s1 = b.s1; d0 = b.d0; d1 = b.d1 } };
}
