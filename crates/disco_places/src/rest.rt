//! What an iterator of an `IdMap` has left.
use disco_values::Text;
use std::collections::btree_map::Iter;

/// What is left of one entry or of those of a tree.
#[derive(Drop)]
pub(crate) enum Rest<'a, V> {
    One(Option<(&'a Text, &'a V)>),
    Many(Iter<'a, Text, V>),
}
