// The content rules, and "admit, then append": whether a whole transaction goes into a journal.
#![tactic(auto)]

ghost use Rattle.std.specs.Prelude.{true, ◌≡◌, ◌≤◌};
ghost use Rattle.std.proofs.Math.ListN as ListN;
ghost use Rattle.line.specs.Test.{all};
ghost use Rattle.line.specs.Character.{digit};
ghost use Rattle.admission.specs.Admission.{Admits, admit_to};
ghost use Rattle.admission.specs.Content.{content, field_count, is_for, is_page, is_pager_id, number_from, pages};

use append::extend;
use journal::buffer::open_in;
use line::Refusal;
use line::character::{CR, Class, are};
use line::memory::find;
use line::transaction::check_transaction;

// The most digits of a pager number.
const DIGITS: usize = 8;

// The information goes into the journal of this length at the start of the buffer, where content
// and room admit it: the journal's new length, and none where it is rejected and nothing is stored.
// Refused where the buffer, the journal's trailer or the information is wrong. The journal's records
// were checked before: none is looked at.
pub fn admit(
    info: &[u8],
    longest: usize,
    pagers: &[u32],
    journal: &mut [u8],
    length: usize,
) -> Result<Option<usize>, Refusal>
    ensures { Admits (admit_to longest pagers.now journal.old length info.now)
        result journal.old journal.new }
{
    open_in(journal, length)?;
    check_transaction(info)?;
    if !has_content(info, longest, pagers) {
        return Ok(None);
    }
    // Refused for want of room alone.
    Ok(extend(journal, length, info).ok())
}

// At most so many characters, two fields, and the first of 1 to 8 digits whose number is listed.
fn has_content(info: &[u8], longest: usize, pagers: &[u32]) -> bool
    ensures { result ≡ content longest pagers.now info.now }
{
    if longest < info.len() {
        return false;
    }
    if count_fields(info) != 2 {
        return false;
    }
    let end = find(info, 0, CR);
    names_pager(&info[..end], pagers)
}

// How many fields: each ends in CR.
// A `for`: `filter` and `count` were tried, and took a third more on 2,000 characters.
fn count_fields(info: &[u8]) -> usize
    ensures { result ≡ field_count info.now }
{
    let mut n = 0;
    for &c in info {
        if c == CR {
            n += 1;
        }
    }
    n
}

// A field of 1 to 8 digits whose number is listed.
fn names_pager(field: &[u8], pagers: &[u32]) -> bool
    ensures { result ≡ pages pagers.now field.now }
{
    if !is_pager_id(field) {
        return false;
    }
    pagers.contains(&number(field))
}

// A page: two fields, the first a pager ID, listed or not.
pub fn is_page(info: &[u8]) -> bool
    ensures { result ≡ is_page info.now }
{
    let end = find(info, 0, CR);
    (count_fields(info) == 2) & is_pager_id(&info[..end])
}

// A record for a pager number: the first field is a pager ID of that number, leading zeros allowed.
pub fn is_for(info: &[u8], pager: u32) -> bool
    ensures { result ≡ is_for pager info.now }
{
    let end = find(info, 0, CR);
    names_pager(&info[..end], &[pager])
}

// A pager ID: 1 to 8 digits.
pub fn is_pager_id(field: &[u8]) -> bool
    ensures { result ≡ is_pager_id field.now }
{
    let n = field.len();
    (1 <= n) & (n <= DIGITS) & are(field, Class::Digit)
}

// The number that so few digits write.
// Digits alone come here, so that nothing can fail as `parse` can.
fn number(digits: &[u8]) -> u32
    requires { (ListN.length digits.now ≤ 8) × (all digit digits.now ≡ true) }
    ensures { result ≡ number_from 0 digits.now }
{
    let mut n = 0;
    for &c in digits {
        n = n * 10 + u32::from(c - 0x30);
    }
    n
}
