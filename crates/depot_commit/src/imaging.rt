//! Which images an archive began with.
use std::marker::Brand;

/// Names the images that the disk of an archive might leave at a moment, behind which contents were
/// stored since. Each call of a program picks them.
pub trait Imaging {
    ghost use Rattle.outside_api.specs.Disk.{Files};

    ghost images: { Files → Type 0 };
}

impl Imaging for Brand {
    ghost use Rattle.outside_api.specs.Disk.{Files};

    ghost images = { λ files. Unit {0} };
}
