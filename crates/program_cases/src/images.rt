//! What a crash leaves of the disk in memory.

use crate::left::holds;
use anyhow::Error;
use mem_io::MemDisk;
use sd_io::NoMemory;
use std::alloc::Global;

/// The first choices of an image.
const CHOICES: u64 = 16;

/// Puts the image that a crash leaves by a choice in a disk's place.
pub fn become_image(alloc: Global, disk: &mut MemDisk, choice: u64) -> Result<(), NoMemory> {
    let image = disk.crash(alloc, choice)?;
    *disk = image;
    Ok(())
}

/// Whether a file holds these bytes, or is absent where there are none, in the image that a crash leaves by a choice.
fn holds_in_image(
    alloc: Global,
    disk: &MemDisk,
    choice: u64,
    path: &str,
    bytes: &Option<Vec<u8>>,
) -> Result<bool, Error> {
    let image = disk.crash(alloc, choice)?;
    match bytes {
        None => Ok(image.mode_at(path).is_none()),
        Some(bytes) => holds(alloc, &image, path, bytes),
    }
}

/// In how many of the first images a file holds these bytes, or is absent where there are none, and how many images that are.
pub fn count_in_images(
    alloc: Global,
    disk: &MemDisk,
    path: &str,
    bytes: &Option<Vec<u8>>,
) -> Result<(u64, u64), Error> {
    let mut count = 0_u64;
    for choice in 0..CHOICES {
        let is_held = holds_in_image(alloc, disk, choice, path, bytes)?;
        count = count.saturating_add(u64::from(is_held));
    }
    Ok((count, CHOICES))
}
