// worked_examples: runs the examples of the papers and of the RFCs through the proved code. The examples are the lines of
// the file `stdin`, each a command with its arguments; every line is written out again, with what came of it below. The
// file `stdout` has what the papers say. A read or a write that fails ends the program with its error.
//
// A command is known by its first letter. One space stands between two arguments, and the last runs to the end of its
// line. HEX is bytes as hex digits; the endpoints take their random bytes so.
//
//   base64 TEXT                                 what a base64 text decodes to
//   handle TEXT                                 whether a text is a handle
//   octets HEX                                  bytes as a handle's are written, and as the writer of forms writes them
//   written TEXT                                a text as the writer of forms writes it
//   decode VALUE                                what a value of a form decodes to, and in how many turns
//   form NAME FORM                              what a form says of a name
//   message TEXT                                the SHA-256 digest of a text
//   letters COUNT                               the digest of so many letters `a`
//   scope VALUE                                 what a scope value says, coded as in a form
//   url TEXT                                    the digest that a base64url text stands for
//   new                                         a token store with nothing in it
//   authorize CLOCK DECISION FARM HEX QUERY     the exports, on that store and the registry of document 01's visit
//   token CLOCK HEX BODY HEADER
//   revoke CLOCK BODY HEADER
//   check CLOCK TOKEN
#![tactic(auto)]

ghost use Rattle.std.specs.Prelude.{◌≤◌, length, IfOk};

use authorization_server::{CheckReply, TokenReply};
use client_registry::layout;
use encoding::Base64Kind;
use form::{Count, Place};
use protocol::limits;
use scope::Scope;
use std::io;
use std::io::Read;

// The most bytes of a text that is decoded or written. Of a longer one nothing is said, so that buffers of fixed size serve.
const MOST_TEXT: usize = 512;

// The most letters of a message that is written so.
const MOST_LETTERS: usize = 4096;

// The most bytes that are read: what stands beyond them is left.
const MOST_INPUT: usize = 65536;

// Beyond it a number is read no further: above every clock, 2 to the 40.
const MOST_NUMBER: u64 = 1000000000000000;

const REGISTRY_SIZE: usize = layout::CONFIDENTIAL_SIZE + layout::PUBLIC_SIZE;

// ---- writing what came of a line

fn say(rt: &impl Print, text: &[u8]) -> io::Result<()> {
    rt.write_all(text)
}

fn say_number(rt: &impl Print, label: &[u8], n: u64) -> io::Result<()> {
    say(rt, label)?;
    print!(rt; "{n}")
}

// Writes what came of a line, where it is one text.
fn found(rt: &impl Print, text: &[u8]) -> io::Result<()> {
    say(rt, b"= ")?;
    if text.len() == 0 {
        say(rt, b"(no bytes)")?;
    }
    say(rt, text)?;
    say(rt, b"\n")
}

// ---- the parts of a line

// The first n bytes, or all where there are fewer.
fn first(bytes: &[u8], n: usize) -> &[u8] {
    if bytes.len() < n {
        return bytes;
    }
    let start = 0;
    &bytes[start..n]
}

// The text before the first space.
fn word(line: &[u8]) -> &[u8] {
    first(line, octets::index_of(line, b' '))
}

// The text behind the first space.
fn rest(line: &[u8]) -> &[u8] {
    let n = octets::index_of(line, b' ');
    if line.len() <= n {
        return first(line, 0);
    }
    let from = n + 1;
    &line[from..]
}

// The decimal number that a text begins with.
fn number(text: &[u8]) -> u64 {
    let mut n = 0;
    for c in text {
        if !c.is_ascii_digit() || MOST_NUMBER < n {
            return n;
        }
        n = n * 10 + u64::from(*c - b'0');
    }
    n
}

// Writes the bytes that a text's hex digits stand for to the front of `out`, as many as it has room for, and gives their
// number.
fn from_hex(text: &[u8], out: &mut [u8]) -> usize {
    let (pairs, _) = text.as_chunks::<2>();
    for (n, &[high, low]) in pairs.iter().enumerate() {
        if out.len() <= n {
            return n;
        }
        let (Some(high), Some(low)) = (
            encoding::hex_value(high, true),
            encoding::hex_value(low, true),
        ) else {
            return n;
        };
        out[n] = high << 4 | low;
    }
    pairs.len()
}

// ---- texts

fn base64(rt: &impl Print, text: &[u8]) -> io::Result<()> {
    let mut out = [0u8; MOST_TEXT];
    if MOST_TEXT < text.len() {
        return Ok(());
    }
    match encoding::decode_base64(Base64Kind::STANDARD, text, &mut out) {
        Some(n) => found(rt, first(&out, n)),
        None => found(rt, b"refused"),
    }
}

fn handle(rt: &impl Print, text: &[u8]) -> io::Result<()> {
    match encoding::read_handle(text) {
        Some(_) => found(rt, b"a handle"),
        None => found(rt, b"no handle"),
    }
}

// Like `written` but for what is written: a function that takes the writer would take its `requires` too.
fn digits(rt: &impl Print, bytes: &[u8]) -> io::Result<()> {
    let mut out = [0u8; 2 * MOST_TEXT];
    if MOST_TEXT < bytes.len() {
        return Ok(());
    }
    let end = encoding::append_hex(&mut out, 0, bytes);
    found(rt, first(&out, end))
}

fn written(rt: &impl Print, text: &[u8]) -> io::Result<()> {
    let mut out = [0u8; 3 * MOST_TEXT];
    if MOST_TEXT < text.len() {
        return Ok(());
    }
    let end = form_coding::append_value(&mut out, 0, text);
    found(rt, first(&out, end))
}

fn octets_written(rt: &impl Print, text: &[u8]) -> io::Result<()> {
    let mut out = [0u8; MOST_TEXT];
    let n = from_hex(text, &mut out);
    let bytes = first(&out, n);
    digits(rt, bytes)?;
    written(rt, bytes)
}

fn message(rt: &impl Print, text: &[u8]) -> io::Result<()> {
    let digest = sha256::digest(text);
    digits(rt, &digest)
}

fn letters(rt: &impl Print, count: &[u8]) -> io::Result<()> {
    let all = [b'a'; MOST_LETTERS];
    let n = number(count);
    if (MOST_LETTERS as u64) < n {
        return Ok(());
    }
    message(rt, first(&all, n as usize))
}

fn url_digest(rt: &impl Print, text: &[u8]) -> io::Result<()> {
    match encoding::read_digest(text) {
        Some(digest) => digits(rt, &digest),
        None => found(rt, b"refused"),
    }
}

// What is done with the text that a value decodes to.
fn with_decoded<F: FnOnce(&[u8]) -> io::Result<()>>(value: &[u8], then: F) -> io::Result<()>
    requires { F.IsAlwaysCallable then }
{
    let mut out = [0u8; MOST_TEXT];
    if MOST_TEXT < value.len() {
        return Ok(());
    }
    let n = form_coding::decode_into(value, &mut out);
    then(first(&out, n))
}

fn decoded(rt: &impl Print, value: &[u8]) -> io::Result<()> {
    with_decoded(value, |text| found(rt, text))
}

fn decoded_in_turns(rt: &impl Print, value: &[u8]) -> io::Result<()> {
    let mut out = [0u8; MOST_TEXT];
    if MOST_TEXT < value.len() {
        return Ok(());
    }
    let d = form_coding::decode_in_turns(value, &mut out);
    say_number(rt, b"turns ", d.turns as u64)?;
    say(rt, b" ")?;
    found(rt, first(&out, d.length))
}

fn place_says(rt: &impl Print, s: &[u8], place: Place) -> io::Result<()> {
    let count = place.count;
    let start = place.start;
    match count {
        Count::Missing => found(rt, b"missing"),
        Count::Repeated => found(rt, b"repeated"),
        Count::Once => {
            let before = first(s, place.end);
            if start <= before.len() {
                decoded(rt, &before[start..])?;
            }
            Ok(())
        }
    }
}

fn form_says(rt: &impl Print, args: &[u8]) -> io::Result<()> {
    let s = rest(args);
    match form::read(s, word(args)) {
        Some(places) => place_says(rt, s, places[0]),
        None => found(rt, b"malformed"),
    }
}

fn names(rt: &impl Print, set: Scope) -> io::Result<()> {
    let mut out = [0u8; MOST_TEXT];
    let end = scope::append(&mut out, 0, set);
    found(rt, first(&out, end))
}

fn value_says(rt: &impl Print, value: &[u8]) -> io::Result<()> {
    match scope::read(value) {
        Some(set) => names(rt, set),
        None => found(rt, b"invalid"),
    }
}

fn scope_says(rt: &impl Print, coded: &[u8]) -> io::Result<()> {
    with_decoded(coded, |value| value_says(rt, value))
}

// ---- the registry of the visit

fn put_byte(registry: &mut [u8], at: usize, b: u8) {
    if at < registry.len() {
        registry[at] = b;
    }
}

// Writes a field: its length, then its bytes.
fn put_field(registry: &mut [u8], at: usize, text: &[u8]) {
    if layout::REDIRECT_ROOM < text.len() {
        return;
    }
    if registry.len() <= at {
        return;
    }
    if registry.len() - at - 1 < text.len() {
        return;
    }
    put_byte(registry, at, text.len() as u8);
    octets::copy_at(registry, at + 1, text);
}

// Writes the parts that every record has.
fn put_client(registry: &mut [u8], start: usize, kind: u8, id: &[u8], redirect: &[u8], scope: u8) {
    if REGISTRY_SIZE < start {
        return;
    }
    put_byte(registry, start, kind);
    put_field(registry, start + layout::AT_ID, id);
    put_field(registry, start + layout::AT_REDIRECT, redirect);
    put_byte(registry, start + layout::AT_SCOPE, scope);
}

// "Client 0: confidential, `s6BhdRkqt3`, `gX1fBat3bV`, `https://client.example.com/cb`, set 11. Client 1: public, `barnapp`,
// `https://barn.example/r?x=1`, set 1."
fn put_clients(registry: &mut [u8; REGISTRY_SIZE]) {
    put_client(
        registry,
        0,
        layout::CONFIDENTIAL_KIND,
        b"s6BhdRkqt3",
        b"https://client.example.com/cb",
        11,
    );
    put_field(registry, layout::AT_SECRET, b"gX1fBat3bV");
    put_client(
        registry,
        layout::CONFIDENTIAL_SIZE,
        layout::PUBLIC_KIND,
        b"barnapp",
        b"https://barn.example/r?x=1",
        1,
    );
}

// ---- the exports, as a host calls them

// A registry and a token store, on which the exports are called.
#[derive(Drop)]
struct Visit {
    registry: [u8; REGISTRY_SIZE],
    store: token_store::StoreBytes,
}

// Writes a refusal's number, or a status, and what was written behind it.
fn answered(rt: &impl Print, label: &[u8], n: u32, output: &[u8]) -> io::Result<()> {
    say_number(rt, label, n as u64)?;
    say(rt, b" ")?;
    found(rt, output)
}

impl Visit {
    // A token store with nothing in it, again.
    fn forget(&mut self) {
        self.store.fill(0);
    }

    fn authorize(&mut self, rt: &impl Print, clock: &[u8]) -> io::Result<()> {
        let mut random = [0u8; limits::CODE_RANDOM];
        let mut output = [0u8; limits::LEAST_OUTPUT];
        let decision = rest(clock);
        let farm = rest(decision);
        let hex = rest(farm);
        let n = from_hex(hex, &mut random);
        let r = authorization_server::poplarchime_authorize(
            rest(hex),
            number(decision),
            (number(farm) % 4294967296) as u32,
            &self.registry,
            &mut self.store,
            number(clock),
            first(&random, n),
            &mut output,
        );
        answered(rt, b"refusal ", r.refusal, first(&output, r.length))
    }

    fn token(&mut self, rt: &impl Print, clock: &[u8]) -> io::Result<()> {
        let mut random = [0u8; limits::TOKEN_RANDOM];
        let mut output = [0u8; limits::LEAST_OUTPUT];
        let hex = rest(clock);
        let body = rest(hex);
        let n = from_hex(hex, &mut random);
        let r = authorization_server::poplarchime_token(
            rest(body),
            word(body),
            &self.registry,
            &mut self.store,
            number(clock),
            first(&random, n),
            &mut output,
        );
        replied(rt, r, &output)
    }

    fn revoke(&mut self, rt: &impl Print, clock: &[u8]) -> io::Result<()> {
        let mut output = [0u8; limits::LEAST_OUTPUT];
        let body = rest(clock);
        let r = authorization_server::poplarchime_revoke(
            rest(body),
            word(body),
            &self.registry,
            &mut self.store,
            number(clock),
            &mut output,
        );
        replied(rt, r, &output)
    }

    fn check(&mut self, rt: &impl Print, clock: &[u8]) -> io::Result<()> {
        let r = authorization_server::poplarchime_check(
            rest(clock),
            &self.registry,
            &mut self.store,
            number(clock),
        );
        checked(rt, r)
    }
}

// Writes the numbers that the token or the revocation endpoint answered, and the reply.
fn replied(rt: &impl Print, r: TokenReply, output: &[u8]) -> io::Result<()> {
    say_number(rt, b"refusal ", u64::from(r.refusal))?;
    say_number(rt, b", challenge ", u64::from(r.challenge))?;
    answered(rt, b", status ", r.status, first(output, r.length))
}

fn checked(rt: &impl Print, r: CheckReply) -> io::Result<()> {
    say_number(rt, b"refusal ", u64::from(r.refusal))?;
    say_number(rt, b", live ", u64::from(r.live))?;
    say_number(rt, b", client ", u64::from(r.client))?;
    say_number(rt, b", farm ", u64::from(r.farm))?;
    say_number(rt, b", set ", u64::from(r.scope))?;
    say_number(rt, b", seconds left ", r.secondsleft)?;
    say(rt, b"\n")
}

// ---- the lines

// Runs the command that the letter begins: any word that begins with it is that command.
fn run(rt: &impl Print, command: u8, args: &[u8], visit: &mut Visit) -> io::Result<()> {
    match command {
        b'a' => visit.authorize(rt, args),
        b'b' => base64(rt, args),
        b'c' => visit.check(rt, args),
        b'd' => decoded_in_turns(rt, args),
        b'f' => form_says(rt, args),
        b'h' => handle(rt, args),
        b'l' => letters(rt, args),
        b'm' => message(rt, args),
        b'n' => {
            visit.forget();
            Ok(())
        }
        b'o' => octets_written(rt, args),
        b'r' => visit.revoke(rt, args),
        b's' => scope_says(rt, args),
        b't' => visit.token(rt, args),
        b'u' => url_digest(rt, args),
        b'w' => written(rt, args),
        _ => found(rt, b"no such command"),
    }
}

// Writes a line, and runs it unless it is empty or a comment.
fn run_line(rt: &impl Print, line: &[u8], visit: &mut Visit) -> io::Result<()> {
    say(rt, line)?;
    say(rt, b"\n")?;
    match line {
        [] | [b'#', ..] => Ok(()),
        [command, ..] => run(rt, *command, rest(line), visit),
    }
}

fn run_lines(rt: &impl Print, lines: &[u8], visit: &mut Visit) -> io::Result<()> {
    if lines.is_empty() {
        return Ok(());
    }
    // a line feed ends a line, and what stands behind the last one is a line unless it is empty
    let text = lines.strip_suffix(b"\n").unwrap_or(lines);
    for line in text.split(|b| *b == b'\n') {
        run_line(rt, line, visit)?;
    }
    Ok(())
}

// Reads the input to the front of `buf` until it is full or the input ends, and gives how many bytes that are.
// Not std's `read_exact`, which takes an input that ends before for an error.
fn read_full(rt: &impl Input, buf: &mut [u8]) -> io::Result<usize>
    ensures { IfOk result (λ n. n ≤ length buf.new) }
{
    let mut input = rt.reader();
    let mut done = 0;
    while done < buf.len() {
        let n = input.read(&mut buf[done..])?;
        if n == 0 {
            break;
        }
        done += n;
    }
    Ok(done)
}

fn main(rt: HostRuntime) -> io::Result<()> {
    // Laid where it stays: a function that handed it on would hold it a second time.
    let mut visit = Visit {
        registry: [0u8; REGISTRY_SIZE],
        store: [0u8; token_store::layout::STORE_SIZE],
    };
    put_clients(&mut visit.registry);
    let mut lines = [0u8; MOST_INPUT];
    let n = read_full(&rt, &mut lines)?;
    run_lines(&rt, &lines[..n], &mut visit)
}
