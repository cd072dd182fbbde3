//! The lines of exposure by bands.

ghost use Rattle.std.specs.Prelude.{◌≡◌, ◌++◌, length, IfOk, OnOk, string_bytes};
ghost use Rattle.exam_lines.specs.Texts.{visited_line, band_item_line, band_item_lines, band_lines, bands_text};

use exam_edge::Memory;
use history_model::{Counts, Exposure};
use std::alloc::Global;

/// How many sessions visited a band.
#[tactic(auto, unfolding(crate::specs::Texts::visited_line))]
fn visited_line(alloc: Global, band: usize, visited: u32) -> Result<String, Memory>
    ensures { IfOk result (λ line. string_bytes line ≡ visited_line band visited) }
{
    format!(in alloc; "band {band} visited {visited}\n")
}

/// The counts of an item in a band.
#[tactic(auto, unfolding(crate::specs::Texts::band_item_line))]
fn band_item_line(alloc: Global, band: usize, item: usize, counts: Counts) -> Result<String, Memory>
    ensures { IfOk result (λ line. string_bytes line ≡ band_item_line band item counts) }
{
    let Counts { alpha, eps } = counts;
    format!(in alloc; "band {band} item {item} shown {alpha} eligible {eps}\n")
}

/// Adds the counts of each item in a band.
fn push_items(alloc: Global, out: &mut String, band: usize, rows: &[Counts]) -> Result<(), Memory>
    ensures { OnOk result (string_bytes out.new
        ≡ string_bytes out.old ++ band_item_lines band (length rows.now) rows.now) }
{
    for item in 0..rows.len() {
        let line = band_item_line(alloc, band, item, rows[item])?;
        out.push_str(line.as_str())?;
    }
    Ok(())
}

/// Adds the lines of a band.
#[tactic(auto, unfolding(crate::specs::Texts::band_lines))]
fn push_band(
    alloc: Global,
    out: &mut String,
    band: usize,
    exposure: &Exposure,
) -> Result<(), Memory>
    ensures { OnOk result (string_bytes out.new
        ≡ string_bytes out.old ++ band_lines band exposure.now) }
{
    let line = visited_line(alloc, band, exposure.finished)?;
    out.push_str(line.as_str())?;
    push_items(alloc, out, band, exposure.rows.as_slice())
}

/// The lines of bands, each with its line feed, band by band from band 0 on: `band B visited V`,
/// and for each item `band B item I shown A eligible E`. `Memory` is lack of memory.
pub fn bands_text(alloc: Global, bands: &[Exposure]) -> Result<String, Memory>
    // Promise: The lines of bands are the stated ones, band by band from 0 on: how many sessions
    // visited the band, and then the counts of each item there
    // - by the clause (`bands_text`)
    ensures { IfOk result (λ lines. string_bytes lines ≡ bands_text bands.now) }
{
    let mut out = String::new(alloc);
    for band in 0..bands.len() {
        push_band(alloc, &mut out, band, &bands[band])?;
    }
    Ok(out)
}
