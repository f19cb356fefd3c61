//! The marks of parties that were told that the archive's disk failed.
use crate::serving::Serving;
use party_marks::Marking;
use std::marker::PhantomData;

/// Names the words of these marks. They lie behind the lock of the archive, those of parties that were
/// told that the journal's disk failed behind the lock of the order.
#[derive(Drop)]
pub struct OfArchive<N: Serving> {
    of: PhantomData<N>,
}

impl<N: Serving> Marking for OfArchive<N> {
    ghost marks = { N.content_marks };
}
