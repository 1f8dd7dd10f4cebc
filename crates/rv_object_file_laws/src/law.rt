//! What is written is read again.

ghost use Rattle.std.specs.Prelude.{◌≡◌, ℕ, ◌<◌, ◌^◌, List, length, None};
ghost use Rattle.rv_object_laws.specs.Object.{Object};
ghost use Rattle.rv_object_file_laws.specs.FirstFault.{first_fault};
ghost use Rattle.rv_object_file_laws.specs.Known.{IsObject};
ghost use Rattle.rv_object_file_laws.specs.ObjectOf.{ObjectOf};
ghost use Rattle.rv_object_file_laws.specs.Written.{HasFile, file_of};

/// The file of an object has no fault, and it is a file of that object. Its offsets are numbers of 64 bits, so it is
/// shorter than 2^64 bytes.
pub fn written_object_is_read()
    ensures fault { (o : Object) → IsObject o → HasFile o → length (file_of o) < 2 ^ 64
        → first_fault (file_of o) ≡ None }
    ensures object { (o : Object) → IsObject o → HasFile o → length (file_of o) < 2 ^ 64
        → ObjectOf (file_of o) o }
{}

/// A file has one object.
pub fn one_object()
    ensures { (file : List ℕ) (o p : Object) → ObjectOf file o → ObjectOf file p → o ≡ p }
{}
