// The texts of the IDs 1 to 9, which a caller lends as one slice.
ghost use Rattle.std.specs.Prelude.{◌≡◌};
ghost use Rattle.symbols.specs.SystemTexts.{system_bytes, same_bytes};

// The nine texts, joined.
const TEXTS: &[u8] =
    b"$ion$ion_1_0$ion_symbol_tablenameversionimportssymbolsmax_id$ion_shared_symbol_table";

// Whether a slice is the nine texts, joined.
#[tactic(auto, using(crate::proofs::SystemBytes::pointwise_same), unfolding(crate::specs::SystemTexts::system_bytes, crate::specs::SystemTexts::system_texts))]
pub fn is_system(lent: &[u8]) -> bool
    ensures { result ≡ same_bytes lent.now system_bytes }
{
    lent == TEXTS
}
