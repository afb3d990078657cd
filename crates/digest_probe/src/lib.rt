// digest_probe: the digest of sha256 by itself, as the tests and the benchmark of host/ call it. No host links it, and the
// library does not hold it.
#![tactic(auto)]

ghost use Rattle.std.specs.Prelude.{◌≡◌, length, leb};
ghost use Rattle.std.proofs.lemmas.List.Edits.{sets};
ghost use Rattle.octets.specs.Search.{bit};
ghost use Rattle.digest_probe.specs.Probe.{digest_into};

// Writes the digest of a message to the front of out and answers 1; where out is shorter than a digest, it writes nothing
// and answers 0.
#[tactic(auto, unfolding(crate::specs::Probe::digest_into))]
#[unsafe(no_mangle)]
pub extern "C" fn poplarchime_probe_digest(message: &[u8], out: &mut [u8]) -> u32
    ensures answer { result ≡ bit (leb 32 (length out.old)) }
    ensures bytes { out.new ≡ sets out.old 0 (digest_into out.old message.now) }
{
    if out.len() < sha256::DIGEST_SIZE {
        return 0;
    }
    let digest = sha256::digest(message);
    octets::copy_at(out, 0, &digest);
    1
}
