use crate::Record;
use base::geometry::Geometry;

/// The record that rules an image, and the image's layout.
#[derive(Clone, Copy)]
pub struct Ruling {
    pub geometry: Geometry,
    pub record: Record,
}
