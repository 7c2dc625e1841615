//! Tests of images: read, edited, written, loaded, scanned from a source and copied; and readers, sources and writers that give or take
//! little, or fail at one call where `tools/test failing-calls` makes none fail; sources over other ones. And of the verdict on a file.
#![tactic(auto)]

#[cfg(test)]
mod asserts;
#[cfg(test)]
mod copies;
#[cfg(test)]
mod image_rules;
#[cfg(test)]
mod images;
#[cfg(test)]
mod offers;
#[cfg(test)]
mod reads;
#[cfg(test)]
mod sources;
