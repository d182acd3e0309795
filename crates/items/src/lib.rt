// Items of all sections: a record's first word, or the section's id, says which. A further section is one more case of each function.
#![tactic(auto)]

ghost use Rattle.std.specs.Prelude.{◌≤◌, length};
ghost use Rattle.format.specs.Count.{silent};
ghost use Rattle.format.specs.Walk.{Walking, Walks};
ghost use Rattle.texts.specs.Judge.{text_most};
ghost use Rattle.items.specs.Record.{words as words_of, item_of, low_of, begins_in, record_of};
ghost use Rattle.items.specs.Judging.{Judges, Tried, Puts};
ghost use Rattle.items.specs.Start.{Starts};

use format::{Done, NO_REFUSAL, Refusal, Walk, append, copy};
use plain::is_plain;

// Document 01, Records: of words.
const WORDS_MOST: usize = 4096;

// Of its text.
const TEXT_MOST: usize = 65536;

// Answers by number, 6.
const ITEM_MOST: usize = 65536;

// Reads a record's words and appends its item.
pub fn walk_words(words: &[u32], text: &[u8], out: &mut [u8], s: Done) -> Walk
    ensures { Walks words_of (item_of text.now) (low_of text.now) words.now 0 out.old s out.new result }
{
    match words {
        [1, ..] => groups::walk_words(words, 1, out, s),
        [2, ..] => imports::walk_words(words, 1, text, out, s),
        [4, ..] => tables::walk_words(words, 1, text, out, s),
        [9, ..] => elements::walk_words(words, 1, text, out, s),
        [11, ..] => data::walk_words(words, 1, text, out, s),
        _ => None,
    }
}

// Reads an item and appends its record's words.
pub fn walk_bytes(id: u8, bytes: &[u8], out: &mut [u32], s: Done) -> Walk
    requires { length bytes.now ≤ text_most }
    ensures { Walking (begins_in id) record_of silent bytes.now 0 out.old s out.new result }
{
    let t = append(id as u32, out, s);
    match id {
        1 => groups::walk_bytes(bytes, 0, out, t),
        2 => imports::walk_bytes(bytes, 0, out, t),
        4 => tables::walk_bytes(bytes, 0, out, t),
        9 => elements::walk_bytes(bytes, 0, out, t),
        11 => data::walk_bytes(bytes, 0, out, t),
        _ => None,
    }
}

// The refusal that judging starts with, above which none is looked for. All texts of an import are names, and where its text is plain, none of them draws 4: they
// are then not checked one by one. A text that is long for so few words is not looked through. Of a text that is over its limit nothing is looked at: no refusal is
// below 0.
fn start(words: &[u32], text: &[u8]) -> u32
    ensures { Starts words.now text.now result }
{
    if TEXT_MOST < text.len() {
        return 0;
    }
    let [2, ..] = words else {
        return NO_REFUSAL;
    };
    if text.len() / 32 <= words.len() && is_plain(text) {
        4
    } else {
        NO_REFUSAL
    }
}

// What a record and its text draw of 2 to 6; or none of them, and the item's length. Measured by a walk, which leaves the item of a record that draws none of them in
// `tried`, where there is room.
pub fn judge(words: &[u32], text: &[u8], tried: &mut [u8]) -> Result<usize, Refusal>
    ensures { Judges words.now text.now tried.old tried.new result }
{
    if WORDS_MOST < words.len() {
        return Err(Refusal::NoRecord);
    }
    let from = start(words, text);
    let Some((end, s)) = walk_words(words, text, tried, Done::new(from)) else {
        return Err(Refusal::NoRecord);
    };
    if end != words.len() {
        return Err(Refusal::NoRecord);
    }
    if TEXT_MOST < text.len() {
        return Err(Refusal::BadText);
    }
    let low = s.low();
    if low < from {
        return Err(Refusal::of(low));
    }
    let n = s.count();
    if ITEM_MOST < n {
        return Err(Refusal::ItemLarge);
    }
    Ok(n)
}

// Writes the item of a record that draws none of them, where there is room: as judging left it, or by a second walk where that had no room. No refusal can be
// lower than 0, so that no text is checked again.
pub fn put_item(words: &[u32], text: &[u8], n: usize, tried: &[u8], out: &mut [u8])
    ensures { Tried words.now text.now n tried.now → Puts words.now text.now out.old out.new }
{
    if let Some(item) = tried.get(..n) {
        let _ = copy(item, out);
        return;
    }
    walk_words(words, text, out, Done::new(0));
}
