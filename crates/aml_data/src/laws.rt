//! What the definitions say of themselves.

ghost use Rattle.std.specs.Prelude.{◌≡◌, ◌≤◌, ℕ, List, ◌++◌, length};
ghost use Rattle.aml_data.specs.declared.data.Data.{Data};
ghost use Rattle.aml_data.specs.declared.path.Path.{Path};
ghost use Rattle.aml_data.specs.declared.fault.DataFault.{DataFault};
ghost use Rattle.aml_data.specs.Grammar.{Const, Len, NameOf, Spells};
ghost use Rattle.aml_data.specs.Faults.{ConstFails, LenFails, NameFails, Fails};
ghost use Rattle.aml_data.specs.Decoded.{IsSpelledAt, IsLengthAt, AreBytes};
ghost use Rattle.aml_data.specs.Decoded.{SpelledOrFails, LengthOrFails};

/// At each place at most one integer constant is spelled, and no spelling begins another.
pub fn one_constant()
    ensures place { (bytes : List ℕ) (at v w m n : ℕ) → IsSpelledAt Const bytes at v m
        → IsSpelledAt Const bytes at w n → (v ≡ w) × (m ≡ n) }
    ensures prefix { (v w : ℕ) (b c x y : List ℕ) → Const v b → Const w c → b ++ x ≡ c ++ y
        → (v ≡ w) × (b ≡ c) }
{}

/// At each place there is at most one PkgLength, and no spelling of one begins another.
pub fn one_length()
    ensures place { (bytes : List ℕ) (at e f m n : ℕ) → IsLengthAt bytes at e m
        → IsLengthAt bytes at f n → (e ≡ f) × (m ≡ n) }
    ensures prefix { (m n : ℕ) (b c x y : List ℕ) → Len m b → Len n c → b ++ x ≡ c ++ y
        → (m ≡ n) × (b ≡ c) }
{}

/// At each place at most one name is spelled, and no spelling begins another.
pub fn one_name()
    ensures place { (bytes : List ℕ) (at : ℕ) (v w : Path) (m n : ℕ) → IsSpelledAt NameOf bytes at v m
        → IsSpelledAt NameOf bytes at w n → (v ≡ w) × (m ≡ n) }
    ensures prefix { (v w : Path) (b c x y : List ℕ) → NameOf v b → NameOf w c → b ++ x ≡ c ++ y
        → (v ≡ w) × (b ≡ c) }
{}

/// At each place at most one data object is spelled, and no spelling begins another.
pub fn one_object()
    ensures place { (bytes : List ℕ) (at : ℕ) (v w : Data) (m n : ℕ) → IsSpelledAt Spells bytes at v m
        → IsSpelledAt Spells bytes at w n → (v ≡ w) × (m ≡ n) }
    ensures prefix { (v w : Data) (b c x y : List ℕ) → Spells v b → Spells w c → b ++ x ≡ c ++ y
        → (v ≡ w) × (b ≡ c) }
{}

/// Bytes have at most one first fault as an integer constant, and none where one is spelled at their front.
pub fn one_constant_fault()
    ensures one { (end : ℕ) (b : List ℕ) (f g : DataFault) → ConstFails end b f → ConstFails end b g → f ≡ g }
    ensures apart { (end v : ℕ) (b x : List ℕ) (f : DataFault) → Const v b
        → ConstFails end (b ++ x) f → ⊥ }
{}

/// Bytes have at most one first fault as a PkgLength, and none where one stands at their front that
/// counts at least its own bytes and reaches no further than they do.
pub fn one_length_fault()
    ensures one { (end : ℕ) (b : List ℕ) (f g : DataFault) → LenFails end b f → LenFails end b g → f ≡ g }
    ensures apart { (end n : ℕ) (p x : List ℕ) (f : DataFault) → Len n p → length p ≤ n
        → n ≤ length (p ++ x) → LenFails end (p ++ x) f → ⊥ }
{}

/// Bytes have at most one first fault as a name, and none where one is spelled at their front.
pub fn one_name_fault()
    ensures one { (end : ℕ) (b : List ℕ) (f g : DataFault) → NameFails end b f → NameFails end b g → f ≡ g }
    ensures apart { (end : ℕ) (v : Path) (b x : List ℕ) (f : DataFault) → NameOf v b
        → NameFails end (b ++ x) f → ⊥ }
{}

/// Bytes have at most one first fault as a data object, and none where one is spelled at their front.
pub fn one_object_fault()
    ensures one { (end : ℕ) (b : List ℕ) (f g : DataFault) → Fails end b f → Fails end b g → f ≡ g }
    ensures apart { (end : ℕ) (v : Data) (b x : List ℕ) (f : DataFault) → Spells v b
        → Fails end (b ++ x) f → ⊥ }
{}

/// From each place in a list of bytes an integer constant is spelled, or there is a first fault.
pub fn constant_or_fault()
    ensures { (bytes : List ℕ) (at : ℕ) → AreBytes bytes → at ≤ length bytes
        → SpelledOrFails Const ConstFails bytes at }
{}

/// From each place in a list of bytes there is a PkgLength, or there is a first fault.
pub fn length_or_fault()
    ensures { (bytes : List ℕ) (at : ℕ) → AreBytes bytes → at ≤ length bytes → LengthOrFails bytes at }
{}

/// From each place in a list of bytes a name is spelled, or there is a first fault.
pub fn name_or_fault()
    ensures { (bytes : List ℕ) (at : ℕ) → AreBytes bytes → at ≤ length bytes
        → SpelledOrFails NameOf NameFails bytes at }
{}

/// From each place in a list of bytes a data object is spelled, or there is a first fault.
pub fn object_or_fault()
    ensures { (bytes : List ℕ) (at : ℕ) → AreBytes bytes → at ≤ length bytes
        → SpelledOrFails Spells Fails bytes at }
{}
