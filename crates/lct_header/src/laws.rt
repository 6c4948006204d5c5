//! Laws of headers. They speak of the definitions alone.

ghost use Rattle.std.specs.Prelude.{◌≡◌, ◌≤◌, ◌⊎◌, ◌+◌, ◌++◌, List, ℕ, length, drop};
ghost use Rattle.wire_bytes.specs.Bytes.{AreBytes};
ghost use Rattle.lct_header.specs.declared.fault.HeaderFault.{HeaderFault};
ghost use Rattle.lct_header.specs.Extension.{Extension};
ghost use Rattle.lct_header.specs.Extensions.{AreExtensions, IsArea};
ghost use Rattle.lct_header.specs.Header.{Header, IsHeader};
ghost use Rattle.lct_header.specs.HeaderView.{HeaderView, BeginsWithHeader, StartsWithHeader};
ghost use Rattle.lct_header.specs.Spelling.{written_length, spelling};
ghost use Rattle.lct_header.specs.Faults.{IsFirstFault};

/// No bytes begin with two headers.
pub fn one_header()
    ensures { (bytes : List ℕ) (v w : HeaderView) → StartsWithHeader bytes v → StartsWithHeader bytes w → v ≡ w }
{}

/// An area is one list of extensions at most.
pub fn one_list()
    ensures { (area : List ℕ) (es fs : List Extension) → AreExtensions area es → AreExtensions area fs → es ≡ fs }
{}

/// What is written begins with the header and the area that it was written of, whatever follows.
pub fn written_is_read()
    ensures { (h : Header) (area rest : List ℕ) → IsHeader h → IsArea area → written_length h area ≤ 1020
        → BeginsWithHeader (spelling h area ++ rest) (record { header = h; length = written_length h area; area = area }) rest }
{}

/// All of a header is there, and what follows it is the bytes without so many as its length says.
pub fn what_follows()
    ensures length { (bytes : List ℕ) (v : HeaderView) (rest : List ℕ) → BeginsWithHeader bytes v rest → length bytes ≡ v.length + length rest }
    ensures rest { (bytes : List ℕ) (v : HeaderView) (rest : List ℕ) → BeginsWithHeader bytes v rest → rest ≡ drop v.length bytes }
{}

/// Bytes begin with a header or have a first fault; not both, and not two of either.
pub fn header_or_fault()
    ensures some { (bytes : List ℕ) → AreBytes bytes → ((v : HeaderView) × StartsWithHeader bytes v) ⊎ ((fault : HeaderFault) × IsFirstFault bytes fault) }
    ensures not_both { (bytes : List ℕ) (v : HeaderView) (fault : HeaderFault) → StartsWithHeader bytes v → IsFirstFault bytes fault → ⊥ }
    ensures one_fault { (bytes : List ℕ) (f g : HeaderFault) → IsFirstFault bytes f → IsFirstFault bytes g → f ≡ g }
{}
