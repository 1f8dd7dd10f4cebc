//! What directives choose from.
//!
//! Source: GNU as, "Pseudo Ops" and "RISC-V-Directives".

/// The sections that have a directive of their own.
#[derive(Clone, Copy, Drop)]
pub enum Standard {
    /// `.text`
    Text,
    /// `.data`
    Data,
    /// `.rodata`
    Rodata,
    /// `.bss`
    Bss,
}

/// Which files can mean a name (gABI, "Symbol Table", st_info).
#[derive(Clone, Copy, Drop)]
pub enum Binding {
    /// `.local`, or nothing: the name is its file's own.
    Local,
    /// `.globl` and `.global`: all files can mean it.
    Global,
    /// `.weak`: all files can mean it, but a global definition of its name comes before its own.
    Weak,
}

/// What `.option` says.
#[derive(Clone, Copy, Drop)]
pub enum Choice {
    Rvc,
    Norvc,
    Relax,
    Norelax,
    Push,
    Pop,
    Nopic,
}

/// The bytes of a value in data.
#[derive(Clone, Copy, Drop)]
pub enum Width {
    /// `.byte`: 1
    Byte,
    /// `.half` and `.2byte`: 2
    Half,
    /// `.word` and `.4byte`: 4
    Word,
    /// `.dword`, `.8byte` and `.quad`: 8
    Double,
}

/// What the word of a directive says.
#[derive(Clone, Copy, Drop)]
pub enum DirectiveWord {
    /// `.text`, `.data`, `.rodata` and `.bss`
    Enters(Standard),
    /// `.section`
    Section,
    /// `.globl`, `.global`, `.local` and `.weak`
    Binds(Binding),
    /// `.set` and `.equ`
    Set,
    /// `.align` and `.p2align`
    AlignToPower,
    /// `.balign`
    AlignToBytes,
    /// `.byte` to `.quad`
    Value(Width),
    /// `.ascii`
    Ascii,
    /// `.asciz` and `.string`
    Asciz,
    /// `.zero`, `.space` and `.skip`
    Zero,
    /// `.option`
    Option,
    /// A directive without effect.
    Ignored,
}
