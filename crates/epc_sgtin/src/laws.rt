//! The laws of SGTINs, their words and their URIs.
ghost use Rattle.std.specs.Prelude.{◌≡◌, ◌⊎◌, ℕ, ◌+◌, ◌-◌, ◌<◌, ◌≤◌, ◌^◌, List, All};
ghost use Rattle.std.specs.Str.{IsAscii};
ghost use Rattle.epc_sgtin.specs.SgtinValue.{SgtinValue, IsLegalSgtin};
ghost use Rattle.epc_sgtin.specs.Partitions.{partition_row};
ghost use Rattle.epc_sgtin.specs.Epc.{IsSgtin};
ghost use Rattle.epc_sgtin.specs.EpcFaults.{RefusesEpc};
ghost use Rattle.epc_sgtin.specs.Uri.{IsUriOf, uri_of};
ghost use Rattle.epc_sgtin.specs.UriFaults.{RefusesUri};
ghost use Rattle.epc_sgtin.specs.declared.encoding.EpcFault.{EpcFault};
ghost use Rattle.epc_sgtin.specs.declared.tag_uri.UriFault.{UriFault};

/// The rows of the partition table add up: 44 bits, 13 digits, and each number of so many digits has room in so
/// many bits.
pub fn partition_laws()
    ensures bits { (partition : ℕ) → partition < 7
        → (partition_row partition).company_bits + (partition_row partition).item_bits ≡ 44 }
    ensures company_digits { (partition : ℕ) → partition < 7
        → (partition_row partition).company_digits ≡ 12 - partition }
    ensures item_digits { (partition : ℕ) → partition < 7
        → (partition_row partition).item_digits ≡ 13 - (partition_row partition).company_digits }
    ensures company_room { (partition : ℕ) → partition < 7
        → 10 ^ (partition_row partition).company_digits
        ≤ 2 ^ (partition_row partition).company_bits }
    ensures item_room { (partition : ℕ) → partition < 7
        → 10 ^ (partition_row partition).item_digits ≤ 2 ^ (partition_row partition).item_bits }
{}

/// Each SGTIN has exactly one list of words, and these are those of no other. For each list of words there is
/// exactly one of the two: an SGTIN whose words they are, or a refusal that is the first to apply.
pub fn sgtin_laws()
    ensures some_words { (sgtin : SgtinValue) → IsLegalSgtin sgtin → (words : List ℕ)
        × IsSgtin sgtin words }
    ensures one_words { (sgtin : SgtinValue) (one other : List ℕ) → IsSgtin sgtin one
        → IsSgtin sgtin other → one ≡ other }
    ensures one_sgtin { (one other : SgtinValue) (words : List ℕ) → IsSgtin one words
        → IsSgtin other words → one ≡ other }
    ensures some { (words : List ℕ) → All (λ word. word < 2 ^ 16) words
        → ((sgtin : SgtinValue) × IsSgtin sgtin words)
        ⊎ ((fault : EpcFault) × RefusesEpc fault words) }
    ensures apart { (sgtin : SgtinValue) (words : List ℕ) (fault : EpcFault) → IsSgtin sgtin words
        → RefusesEpc fault words → ⊥ }
    ensures one_fault { (one other : EpcFault) (words : List ℕ) → RefusesEpc one words
        → RefusesEpc other words → one ≡ other }
{}

/// A URI is ASCII. No two SGTINs have one URI. For each text there is exactly one of the two: an SGTIN whose URI it is, or a
/// refusal that is the first to apply.
pub fn uri_laws()
    ensures ascii { (sgtin : SgtinValue) → IsLegalSgtin sgtin → IsAscii (uri_of sgtin) }
    ensures one_sgtin { (one other : SgtinValue) (text : List ℕ) → IsUriOf one text
        → IsUriOf other text → one ≡ other }
    ensures some { (text : List ℕ) → ((sgtin : SgtinValue) × IsUriOf sgtin text)
        ⊎ ((fault : UriFault) × RefusesUri fault text) }
    ensures apart { (sgtin : SgtinValue) (text : List ℕ) (fault : UriFault) → IsUriOf sgtin text
        → RefusesUri fault text → ⊥ }
    ensures one_fault { (one other : UriFault) (text : List ℕ) → RefusesUri one text
        → RefusesUri other text → one ≡ other }
{}
