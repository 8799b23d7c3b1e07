//! The capitals of a pattern, by their places in the alphabet from 0.

pub(crate) const A: usize = 0;

pub(crate) const B: usize = 1;

pub(crate) const C: usize = 2;

pub(crate) const D: usize = 3;

pub(crate) const L: usize = 11;

pub(crate) const M: usize = 12;

pub(crate) const N: usize = 13;

pub(crate) const O: usize = 14;

pub(crate) const P: usize = 15;

pub(crate) const Q: usize = 16;

pub(crate) const S: usize = 18;

pub(crate) const T: usize = 19;

pub(crate) const V: usize = 21;

pub(crate) const X: usize = 23;

pub(crate) const Y: usize = 24;

pub(crate) const Z: usize = 25;
