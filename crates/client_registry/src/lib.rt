// client_registry: the clients that may ask for tokens, in bytes that the caller lends (document 01's register).
//
// `fitness_of` judges any bytes. `find` looks a client up in a fit registry, and what it finds, an `Entry`, is what the
// readers of a client's parts take.
#![tactic(auto)]

ghost use Rattle.std.specs.Prelude.{◌≡◌, true, ◌≤◌, length};
ghost use Rattle.std.specs.Iterator.{YieldsFirstRef, item_count};
ghost use Rattle.octets.specs.Lists.{every, same};
ghost use Rattle.client_registry.specs.Layout.{public_size};
ghost use Rattle.client_registry.specs.Registry.{sound_common, sound_record, record_size, records, sound_records, client_of, clients_of, ids_of, differ, distinct, fit_registry, count_if, fitness_of};
ghost use Rattle.client_registry.specs.Lookup.{client_at, record_at, find_client, IsRecordOf, IsEntry};

mod field;
pub mod layout;

use field::{ID, REDIRECT, SECRET};

// A client of a registry: its number, and where its record starts.
#[derive(Clone, Copy)]
pub struct Entry {
    pub number: u8,
    pub start: usize,
}

// ---- records

// How many bytes a record of this kind takes; a byte that is no kind stands alone.
// 1 and no Option: `records` is defined for any bytes, and counts it so.
#[tactic(auto, unfolding(crate::specs::Registry::record_size))]
fn record_size(kind: u8) -> usize
    ensures { result ≡ record_size kind }
{
    match kind {
        layout::PUBLIC_KIND => layout::PUBLIC_SIZE,
        layout::CONFIDENTIAL_KIND => layout::CONFIDENTIAL_SIZE,
        _ => 1,
    }
}

// The records of any bytes, each as long as its kind says. The last is what is left, where that is less.
#[derive(Clone, Copy)]
struct EachRecord<'a> {
    rest: &'a [u8],
}

fn each_record(b: &[u8]) -> EachRecord<'_>
    ensures { result.rest.now ≡ b.now }
{
    EachRecord { rest: b }
}

impl<'a> Iterator for EachRecord<'a> {
    type Item = &'a [u8];

    ghost next_gives = { YieldsFirstRef (λ s. records s.rest.now) };

    ghost remaining = { item_count (λ s. records s.rest.now) };

    fn next(&mut self) -> Option<&'a [u8]> {
        if self.rest.is_empty() {
            return None;
        }
        let size = record_size(self.rest[0]).min(self.rest.len());
        let (first, rest) = self.rest.split_at(size);
        self.rest = rest;
        Some(first)
    }
}

// Whether the parts that every record has are sound: the id, the redirect and the scope set.
#[tactic(auto, unfolding(crate::specs::Registry::sound_common, crate::specs::Registry::sound_id, crate::specs::Registry::sound_redirect))]
fn common_is_sound(r: &[u8]) -> bool
    requires { public_size ≤ length r.now }
    ensures { result ≡ sound_common r.now }
{
    ID.is_sound(r) & REDIRECT.is_sound(r) & (r[layout::AT_SCOPE] != 0)
}

// Whether a record is sound: one of a kind, as long as its kind says, with sound parts.
#[tactic(auto, unfolding(crate::specs::Registry::sound_record, crate::specs::Registry::sound_public, crate::specs::Registry::sound_confidential, crate::specs::Registry::sound_secret))]
fn record_is_sound(r: &[u8]) -> bool
    ensures { result ≡ sound_record r.now }
{
    if r.len() == layout::PUBLIC_SIZE {
        return (r[0] == layout::PUBLIC_KIND) & common_is_sound(r);
    }
    if r.len() == layout::CONFIDENTIAL_SIZE {
        return (r[0] == layout::CONFIDENTIAL_KIND) & common_is_sound(r) & SECRET.is_sound(r);
    }
    false
}

// ---- fitness

// How many records there are, where they are 1 to 64 and each is sound.
#[tactic(auto, unfolding(crate::specs::Registry::sound_records, octets::specs::Lists::every))]
fn count_records(b: &[u8]) -> Option<u8>
    ensures { result ≡ count_if (sound_records b.now) b.now }
{
    // no `count`, which would go over all the bytes, however many records they are
    let mut n = 0;
    for r in each_record(b) {
        if (n == layout::MAX_CLIENTS) | !record_is_sound(r) {
            return None;
        }
        n += 1;
    }
    if n == 0 {
        return None;
    }
    Some(n)
}

// Whether two records have the same id. Their id fields are compared whole: equal fields, equal ids.
fn same_id(one: &[u8], other: &[u8]) -> bool
    requires { (sound_record one.now ≡ true) × (sound_record other.now ≡ true) }
    ensures { result ≡ same (client_of one.now).id (client_of other.now).id }
{
    let from = layout::AT_ID;
    let to = layout::AT_REDIRECT;
    octets::equal(&one[from..to], &other[from..to])
}

// Whether none of the others has the id of a record.
#[tactic(auto, unfolding(octets::specs::Lists::every))]
fn id_is_new(r: &[u8], others: EachRecord) -> bool
    requires { (sound_record r.now ≡ true) × (every sound_record (records others.rest.now) ≡ true) }
    ensures { result ≡ every (differ (client_of r.now).id) (ids_of others.entry.rest.now) }
{
    for other in others {
        if same_id(r, other) {
            return false;
        }
    }
    true
}

// Whether no two records have the same id.
#[tactic(auto, unfolding(crate::specs::Registry::sound_records, crate::specs::Registry::distinct, octets::specs::Lists::every))]
fn ids_are_distinct(b: &[u8]) -> bool
    requires { sound_records b.now ≡ true }
    ensures { result ≡ distinct (ids_of b.now) }
{
    let mut others = each_record(b);
    while let Some(r) = others.next() {
        if !id_is_new(r, others) {
            return false;
        }
    }
    true
}

// Of how many clients the bytes are a registry, which fits a byte; nothing where they are none.
#[tactic(auto, unfolding(crate::specs::Registry::fit_registry))]
pub fn fitness_of(b: &[u8]) -> Option<u8>
    ensures { result ≡ fitness_of b.now }
{
    let n = count_records(b)?;
    if !ids_are_distinct(b) {
        return None;
    }
    Some(n)
}

// ---- the look-up

// Whether a record has this id.
fn has_id(r: &[u8], id: &[u8]) -> bool
    requires { sound_record r.now ≡ true }
    ensures { result ≡ same (client_of r.now).id id.now }
{
    octets::equal(ID.text(r), id)
}

// The client with this id.
pub fn find(b: &[u8], id: &[u8]) -> Option<Entry>
    requires { fit_registry b.now ≡ true }
    ensures { result ≡ find_client b.now id.now }
{
    // no `position`, which gives the number alone: where the record starts would take a second walk
    let mut start = 0;
    let mut number: u8 = 0;
    for r in each_record(b) {
        if has_id(r, id) {
            return Some(Entry { number, start });
        }
        start += r.len();
        number += 1;
    }
    None
}

// ---- the parts of a client

// A client's record.
fn record_of(b: &[u8], e: Entry) -> &[u8]
    requires { (fit_registry b.now ≡ true) × IsEntry b.now e }
    ensures { IsRecordOf (client_at (clients_of b.now) e.number) result.now }
{
    let end = e.start + record_size(b[e.start]);
    &b[e.start..end]
}

// Whether a client has a secret.
pub fn is_confidential(b: &[u8], e: Entry) -> bool
    requires { (fit_registry b.now ≡ true) × IsEntry b.now e }
    ensures { result ≡ (client_at (clients_of b.now) e.number).confidential }
{
    let r = record_of(b, e);
    r[0] == layout::CONFIDENTIAL_KIND
}

// The address that a client has registered.
pub fn redirect(b: &[u8], e: Entry) -> &[u8]
    requires { (fit_registry b.now ≡ true) × IsEntry b.now e }
    ensures { result.now ≡ (client_at (clients_of b.now) e.number).redirect }
{
    REDIRECT.text(record_of(b, e))
}

// The number of a client's scope set.
pub fn scope_set(b: &[u8], e: Entry) -> u8
    requires { (fit_registry b.now ≡ true) × IsEntry b.now e }
    ensures { result ≡ (client_at (clients_of b.now) e.number).scope }
{
    let r = record_of(b, e);
    r[layout::AT_SCOPE]
}

// A client's secret: no bytes for a public one.
pub fn secret(b: &[u8], e: Entry) -> &[u8]
    requires { (fit_registry b.now ≡ true) × IsEntry b.now e }
    ensures { result.now ≡ (client_at (clients_of b.now) e.number).secret }
{
    let r = record_of(b, e);
    if r[0] != layout::CONFIDENTIAL_KIND {
        return &r[0..0];
    }
    SECRET.text(r)
}
