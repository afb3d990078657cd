// decoding_probe: the decoder of form_coding by itself, as the decoding benchmark of host/ calls it. No host links it, and the
// library does not hold it.
//
// It calls only what form_coding has had since the first version, so that it can be built over a former decoder too.
#![tactic(auto)]

ghost use Rattle.std.specs.Prelude.{◌≡◌, length};
ghost use Rattle.std.proofs.lemmas.List.Edits.{sets};
ghost use Rattle.octets.specs.Lists.{same};
ghost use Rattle.octets.specs.Search.{bit};
ghost use Rattle.form_coding.specs.Coding.{decode};
ghost use Rattle.decoding_probe.specs.Probe.{decoded_into};

// Writes the decoded bytes of a value to out from its start, and gives their number: none where out is shorter than the value.
#[tactic(auto, unfolding(crate::specs::Probe::decoded_into))]
#[unsafe(no_mangle)]
pub extern "C" fn poplarchime_probe_decode(value: &[u8], out: &mut [u8]) -> usize
    ensures count { result ≡ length (decoded_into out.old value.now) }
    ensures bytes { out.new ≡ sets out.old 0 (decoded_into out.old value.now) }
{
    if out.len() < value.len() {
        return 0;
    }
    form_coding::decode_into(value, out)
}

// 1 where a value decodes to the expected bytes, else 0.
#[unsafe(no_mangle)]
pub extern "C" fn poplarchime_probe_equals(value: &[u8], expected: &[u8]) -> u32
    ensures { result ≡ bit (same (decode value.now) expected.now) }
{
    u32::from(form_coding::value_equals(value, expected))
}
