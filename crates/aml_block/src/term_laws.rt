//! What the definitions say of themselves.

ghost use Rattle.std.specs.Prelude.{◌≡◌, ◌⊎◌, ◌<◌, ◌≤◌, ◌^◌, ℕ, List, length};
ghost use Rattle.aml_data.specs.declared.data.Data.{Data};
ghost use Rattle.aml_data.specs.Countable.{IsIn, IsCountable};
ghost use Rattle.aml_block.specs.declared.term.Term.{Term as term_type};
ghost use Rattle.aml_block.specs.declared.term_fault.TermFault.{TermFault as fault_type};
ghost use Rattle.aml_data.specs.Decoded.{AreBytes};
ghost use Rattle.aml_block.specs.Grammar.{TermsSpell};
ghost use Rattle.aml_block.specs.TermFaults.{TermsFail};
ghost use Rattle.aml_block.specs.Values.{HasValue};
ghost use Rattle.aml_block.specs.WrittenTerms.{written_terms, AreWritableTerms};

/// Bytes spell at most one list of terms.
pub fn one_list_of_terms()
    ensures { (a b : List term_type) (bytes : List ℕ) → TermsSpell a bytes → TermsSpell b bytes → a ≡ b }
{}

/// Bytes have at most one first fault as terms, and none where they spell terms.
pub fn one_term_fault()
    ensures one { (end : ℕ) (bytes : List ℕ) (f g : fault_type) → TermsFail end bytes f
        → TermsFail end bytes g → f ≡ g }
    ensures apart { (end : ℕ) (terms : List term_type) (bytes : List ℕ) (f : fault_type) →
        TermsSpell terms bytes → TermsFail end bytes f → ⊥ }
{}

/// Each list of bytes spells terms or has a first fault of them: by `one_term_fault` one of the two alone.
pub fn terms_or_fault()
    ensures { (end : ℕ) (bytes : List ℕ) → AreBytes bytes
        → ((terms : List term_type) × TermsSpell terms bytes) ⊎ ((f : fault_type) × TermsFail end bytes f) }
{}

/// The written form of terms spells them, no spelling of them is shorter, and terms that are spelled in
/// fewer than 2 ^ 28 bytes can be written, so all that are read from a definition block
/// (ACPI 6.5, 20.2.5).
pub fn shortest_terms()
    ensures spelled { (terms : List term_type) → AreWritableTerms terms
        → length (written_terms terms) < 2 ^ 28 → TermsSpell terms (written_terms terms) }
    ensures least { (terms : List term_type) (b : List ℕ) → TermsSpell terms b
        → length (written_terms terms) ≤ length b }
    ensures writable { (terms : List term_type) (b : List ℕ) → TermsSpell terms b → length b < 2 ^ 28
        → AreWritableTerms terms }
{}

/// Whatever is in an object that terms name has elements that 32 bits can count, where the terms can be
/// written, and so where they were read from a definition block.
pub fn countable_values()
    ensures { (terms : List term_type) (value part : Data) → AreWritableTerms terms
        → HasValue value terms → IsIn part value → IsCountable part }
{}
