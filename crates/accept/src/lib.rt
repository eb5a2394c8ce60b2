// A model sheet accepted, or refused with 7, 8, 16 or 9, in that order (document 01, and 02, T-09).

#![tactic(auto)]

ghost use Rattle.std.specs.Prelude.{◌≡◌, ◌≤◌, true, false, MatchResult};
ghost use Rattle.refusals.specs.Numbers.{refusal_number};
ghost use Rattle.refusals.specs.declared.Refusal.TheVariants.{SheetLength};
ghost use Rattle.sheet.specs.Sheet.{line_count};
ghost use Rattle.sheet.specs.Accepted.{shaped, valid, reached, own_refusal, sheet_refusal};

use refusals::Refusal;
use sheet::{Accepted, Layout, Sheet};

// Refusal 7: the bytes as a sheet, where every section count is in its range and the length is exact.
#[tactic(auto, unfolding(sheet::specs::Accepted::shaped))]
fn shaped(bytes: &[u8]) -> Result<Sheet<'_>, Refusal>
    ensures { MatchResult result (λ s. (s.bytes.now ≡ bytes.now) × (shaped bytes.now ≡ true)) (λ why. (why ≡ SheetLength) × (shaped bytes.now ≡ false)) }
{
    let layout = Layout::of(bytes);
    if limits::is_line_count(layout.lines)
        & limits::is_tide_count(layout.tides)
        & limits::is_place_count(layout.places)
        & (bytes.len() == layout.end)
    {
        Ok(Sheet { bytes, layout })
    } else {
        Err(Refusal::SheetLength)
    }
}

#[tactic(auto, using(sheet::proofs::Flat::and_assoc), unfolding(sheet::specs::Accepted::valid))]
fn is_valid(sheet: &Sheet<'_>) -> bool
    ensures { result ≡ valid sheet.now.bytes.now }
{
    sheet_lines::are_lines(sheet) & sheet_lines::are_rows(sheet) & sheet_places::are_places(sheet)
}

// Whether the field's degree reaches every place: they ascend, so that the last has the highest degree.
fn is_reached(accepted: &Accepted<'_>, n: u32) -> bool
    ensures { result ≡ reached accepted.now.sheet.bytes.now n }
{
    let sheet = &accepted.sheet;
    let places = sheet.layout.places;
    places == 0 || sheet.degree_at(places - 1) <= n as usize
}

// Refusals 7, 8 and 16, of a sheet by itself.
#[tactic(auto, unfolding(sheet::specs::Accepted::own_refusal))]
pub fn tested_alone(bytes: &[u8]) -> Result<Accepted<'_>, Refusal>
    ensures { MatchResult result (λ a. (a.sheet.bytes.now ≡ bytes.now) × (own_refusal bytes.now ≡ 0)) (λ why. own_refusal bytes.now ≡ refusal_number why) }
{
    let sheet = shaped(bytes)?;
    if !is_valid(&sheet) {
        return Err(Refusal::SheetValue);
    }
    if !sheet_twins::are_untwinned(&sheet) {
        return Err(Refusal::TwinLines);
    }
    Ok(Accepted { sheet })
}

// Refusals 7, 8, 16 and 9, of a sheet for a field of degree n.
#[tactic(auto, unfolding(sheet::specs::Accepted::sheet_refusal))]
pub fn tested(bytes: &[u8], n: u32) -> Result<Accepted<'_>, Refusal>
    ensures { MatchResult result (λ a. (a.sheet.bytes.now ≡ bytes.now) × (sheet_refusal bytes.now n ≡ 0)) (λ why. sheet_refusal bytes.now n ≡ refusal_number why) }
{
    let accepted = tested_alone(bytes)?;
    if !is_reached(&accepted, n) {
        return Err(Refusal::SheetDegree);
    }
    Ok(accepted)
}
