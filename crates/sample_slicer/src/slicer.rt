//! The slicer.
ghost use Rattle.std.specs.Prelude.{◌≡◌, ◌≤◌, ◌<◌, ◌+◌, ◌-◌, ◌^◌, ℕ, Bool, List, [], length, take, OnOk, OnErr, IfErr, IfSome, IfNone, IfOk, IsOk, Err};
ghost use Rattle.sample_slicer.specs.Masks.{sample_mask_of};
ghost use Rattle.sample_slicer.specs.Samples.{AreLevels, IsPure, RefusesSamples, most_samples};
ghost use Rattle.sample_slicer.specs.SlicedTo.{SlicedTo};
ghost use Rattle.sample_slicer.specs.declared.slicer.SliceRefusal.{SliceRefusal};

use bit_strings::Levels;
use std::simd::prelude::*;
use thiserror::Error;

/// Why samples are no whole levels (profile). A place is the number of a sample, counted from 0.
#[derive(Clone, Copy, Debug, PartialEq, Eq, Error)]
pub enum SliceRefusal {
    /// The first whole group that has samples on both sides of the threshold begins at this place.
    #[error("the group of samples from place {0} on is on both sides of the threshold")]
    Mixed(u32),
    /// Each whole group is on one side, and the last group, which begins at this place, is short.
    #[error("the last group of samples, from place {0} on, is short")]
    Rest(u32),
}

/// How many samples are compared with the threshold at once.
const LANES: usize = 32;

/// Which of the first 32 samples are at or above the threshold: a mask whose lowest bit stands for the
/// first sample.
fn high_samples(samples: &[u8], threshold: u8) -> u64
    requires { 32 ≤ length samples.now }
    ensures { result ≡ sample_mask_of threshold (take 32 samples.now) }
{
    let lanes = u8x32::from_slice(samples);
    lanes.simd_ge(u8x32::splat(threshold)).to_bitmask()
}

/// The level of the group of samples that a mask stands for: 1 where the mask is that of samples which
/// are all at or above the threshold, 0 where it is that of samples which are all below it.
fn level_of_mask(mask: u64, all_high: u64) -> Option<bool>
    ensures pure { IfSome result
        (λ level. (threshold : ℕ) (group : List ℕ) → mask ≡ sample_mask_of threshold group
        → all_high + 1 ≡ 2 ^ length group → IsPure threshold level group) }
    ensures mixed { IfNone result
        ((threshold : ℕ) (group : List ℕ) → mask ≡ sample_mask_of threshold group
        → all_high + 1 ≡ 2 ^ length group → (level : Bool) → ¬ IsPure threshold level group) }
{
    // Only whether they are mixed is a jump, so that none depends on the level.
    if mask != 0 && mask != all_high {
        None
    } else {
        Some(mask != 0)
    }
}

/// The level that a group of samples stands for: 1 where each is at or above the threshold, 0 where
/// each is below it, none where it has both.
fn level_of(group: &[u8], threshold: u8) -> Option<bool>
    requires least { 1 ≤ length group.now }
    requires most { length group.now ≤ 64 }
    ensures pure { IfSome result (λ level. IsPure threshold level group.now) }
    ensures mixed { IfNone result ((level : Bool) → ¬ IsPure threshold level group.now) }
{
    if group.len() < LANES {
        level_of_short(group, threshold)
    } else {
        level_of_long(group, threshold)
    }
}

/// The same for any group, by one sample after the other.
fn level_of_short(group: &[u8], threshold: u8) -> Option<bool>
    requires { 1 ≤ length group.now }
    ensures pure { IfSome result (λ level. IsPure threshold level group.now) }
    ensures mixed { IfNone result ((level : Bool) → ¬ IsPure threshold level group.now) }
{
    let level = group[0] >= threshold;
    if group.iter().all(|sample| (*sample >= threshold) == level) {
        Some(level)
    } else {
        None
    }
}

/// The same for a group of 32 to 64 samples, by its first 32 and its last 32 samples.
fn level_of_long(group: &[u8], threshold: u8) -> Option<bool>
    requires least { 32 ≤ length group.now }
    requires most { length group.now ≤ 64 }
    ensures pure { IfSome result (λ level. IsPure threshold level group.now) }
    ensures mixed { IfNone result ((level : Bool) → ¬ IsPure threshold level group.now) }
{
    let first = high_samples(group, threshold);
    let last = high_samples(&group[group.len() - LANES..], threshold);
    if first == last {
        level_of_mask(first, u32::MAX as u64)
    } else {
        None
    }
}

/// Writes the levels of the groups that are whole in the 32 samples from `start` on, where a group
/// begins, and answers the place behind these groups.
fn slice_block(
    samples: &[u8],
    threshold: u8,
    per: usize,
    start: usize,
    out: &mut Levels,
) -> Result<usize, SliceRefusal>
    requires least { 1 ≤ per }
    requires most { per ≤ 32 }
    requires few { length samples.now ≤ most_samples }
    requires room { length samples.now ≤ out.old.capacity }
    requires block { start + 32 ≤ length samples.now }
    requires so_far { SlicedTo threshold per samples.now out.old.items start }
    ensures sliced { IfOk result (λ at. SlicedTo threshold per samples.now out.new.items at) }
    ensures onward { IfOk result (λ at. start < at) }
    ensures refused { IfErr result (RefusesSamples threshold per samples.now) }
    ensures capacity { out.new.capacity ≡ out.old.capacity }
{
    let end = start + LANES;
    let all_high = (1 << per) - 1;
    let mut mask = high_samples(&samples[start..end], threshold);
    let mut at = start;
    while end - at >= per {
        let Some(level) = level_of_mask(mask & all_high, all_high) else {
            return Err(SliceRefusal::Mixed(at as u32));
        };
        out.push_reserved(level);
        mask >>= per;
        at += per;
    }
    Ok(at)
}

/// Writes the levels as [`slice_levels`] does, into an empty list, and leaves there what it had written
/// before a refusal.
fn slice_groups(
    samples: &[u8],
    threshold: u8,
    per: usize,
    out: &mut Levels,
) -> Result<(), SliceRefusal>
    requires least { 1 ≤ per }
    requires most { per ≤ 64 }
    requires few { length samples.now ≤ most_samples }
    requires empty { out.old.items ≡ [] }
    requires room { length samples.now ≤ out.old.capacity }
    ensures ok { OnOk result (AreLevels threshold per samples.now out.new.items) }
    ensures refused { IfErr result (RefusesSamples threshold per samples.now) }
    ensures capacity { out.new.capacity ≡ out.old.capacity }
{
    let mut place = 0;
    while per <= LANES && samples.len() - place >= LANES {
        place = slice_block(samples, threshold, per, place, out)?;
    }
    // The groups that are left: fewer than 32 samples, or longer groups.
    while samples.len() - place >= per {
        let Some(level) = level_of(&samples[place..place + per], threshold) else {
            return Err(SliceRefusal::Mixed(place as u32));
        };
        out.push_reserved(level);
        place += per;
    }
    if place < samples.len() {
        return Err(SliceRefusal::Rest(place as u32));
    }
    Ok(())
}

/// Writes one level for each group of `per_level` samples, which is 1 to 64: 1 where each sample is at
/// or above the threshold, 0 where each is below it.
///
/// `out` is cleared first, and is empty after a refusal.
pub fn slice_levels(
    samples: &[u8],
    threshold: u8,
    per_level: u32,
    out: &mut Levels,
) -> Result<(), SliceRefusal>
    requires least { 1 ≤ per_level }
    requires most { per_level ≤ 64 }
    requires few { length samples.now ≤ most_samples }
    requires room { length samples.now ≤ out.old.capacity }
    ensures ok { OnOk result (AreLevels threshold per_level samples.now out.new.items) }
    ensures refused { IfErr result (RefusesSamples threshold per_level samples.now) }
    ensures err { OnErr result (out.new.items ≡ []) }
    // What the samples are is answered.
    ensures only { (levels : List Bool) → AreLevels threshold per_level samples.now levels
        → IsOk result × (out.new.items ≡ levels) }
    ensures first { (refusal : SliceRefusal)
        → RefusesSamples threshold per_level samples.now refusal → result ≡ Err refusal }
    ensures capacity { out.new.capacity ≡ out.old.capacity }
{
    out.clear();
    let outcome = slice_groups(samples, threshold, per_level as usize, out);
    if outcome.is_err() {
        out.clear();
    }
    outcome
}
