// The traits that types implement.
use std::error::Error;
use std::fmt::{Debug, Display};
use std::iter::FusedIterator;

pub(crate) fn is_copy<T: Copy>() {}

pub(crate) fn is_plain<T: Copy + PartialEq + Eq>() {}

pub(crate) fn is_shown<T: Debug>() {}

pub(crate) fn is_error<T: Error + Display + Debug>() {}

pub(crate) fn is_walk<T, I: Iterator<Item = T>>(_walk: &I) {}

pub(crate) fn is_fused<I: FusedIterator>(_walk: &I) {}
