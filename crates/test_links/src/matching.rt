//! Symbols, versions and names, and which definition of one object a reference takes.

use crate::objects::{function, object_with, push_symbol};
use ld_base::{
    DlFault, Name, Object, Symbol, Symbols, Verdef, Verdefs, Want, field16, field32, field64, pick,
};
use std::alloc::Global;
use test_file::{Fault, Words, show, show_some};

/// What lines said of an object so far.
#[derive(Drop)]
pub struct Library {
    /// The entries of the versym table, one a symbol.
    entries: Vec<u16>,
    versions: Vec<Verdef>,
}

impl Library {
    pub fn new(alloc: Global) -> Self {
        Library {
            entries: Vec::new(alloc),
            versions: Vec::new(alloc),
        }
    }

    /// Puts a function `f` at the end, whose entry of the versym table is this. Gives how many symbols
    /// there are.
    pub fn symbol(&mut self, alloc: Global, words: &mut Words) -> Result<String, Fault> {
        let version = number16(words)?;
        self.entries.push(version)?;
        show(alloc, self.entries.len())
    }

    /// Defines a version: its index, its flags and its name. Says whether it names the object itself.
    pub fn version(&mut self, alloc: Global, words: &mut Words) -> Result<String, Fault> {
        let (index, flags) = (number16(words)?, number16(words)?);
        let name = name_in(alloc, words)?;
        let verdef = Verdef { index, flags, name };
        let is_base = verdef.is_base();
        self.versions.push(verdef)?;
        show(alloc, is_base)
    }

    /// The name of a version's index.
    pub fn version_name(&self, alloc: Global, words: &mut Words) -> Result<String, Fault> {
        let index = number16(words)?;
        let object = self.object(alloc)?;
        match object.version_name(index) {
            Some(name) => Ok(format!(in alloc; "{name}")?),
            None => Ok(String::from_str(alloc, "none")?),
        }
    }

    /// The symbol that a reference takes: of a name, and what is wanted.
    pub fn pick(&self, alloc: Global, words: &mut Words) -> Result<String, Fault> {
        let name = words.text()?;
        let want = want(alloc, words)?;
        let object = self.object(alloc)?;
        show_some(alloc, pick(&object, name.as_bytes(), &want))
    }

    fn symbols(&self, alloc: Global) -> Result<Symbols, Fault> {
        let mut symbols = Symbols::new(alloc);
        for version in self.entries.as_slice() {
            push_symbol(&mut symbols, function(alloc, 1, *version)?)?;
        }
        Ok(symbols)
    }

    fn verdefs(&self, alloc: Global) -> Result<Verdefs, Fault> {
        let mut verdefs = Verdefs::new(alloc);
        for verdef in self.versions.as_slice() {
            let name = Name::new(alloc, verdef.name.as_bytes())?;
            verdefs.push(Verdef { name, ..*verdef })?;
        }
        Ok(verdefs)
    }

    fn object(&self, alloc: Global) -> Result<Object, Fault> {
        let symbols = self.symbols(alloc)?;
        let mut object = object_with(alloc, symbols, self.verdefs(alloc)?)?;
        object.has_versym = true;
        Ok(object)
    }
}

fn number16(words: &mut Words) -> Result<u16, Fault> {
    u16::try_from(words.number()?).map_err(|_| Fault::Unclear)
}

fn number8(words: &mut Words) -> Result<u8, Fault> {
    u8::try_from(words.number()?).map_err(|_| Fault::Unclear)
}

fn name_in(alloc: Global, words: &mut Words) -> Result<Name, Fault> {
    Ok(Name::new(alloc, words.text()?.as_bytes())?)
}

/// What a reference wants: `plain`, `dlsym`, `version V` or `dlvsym V`.
fn want(alloc: Global, words: &mut Words) -> Result<Want, Fault> {
    match words.text()? {
        "plain" => Ok(Want::Plain),
        "dlsym" => Ok(Want::Dlsym),
        "version" => Ok(Want::Version(name_in(alloc, words)?)),
        "dlvsym" => Ok(Want::Dlvsym(name_in(alloc, words)?)),
        _ => Err(Fault::Unclear),
    }
}

/// What a symbol is: of its info, its other byte, its section, its value and its entry of the versym
/// table.
pub fn told(alloc: Global, words: &mut Words) -> Result<String, Fault> {
    let (info, other) = (number8(words)?, number8(words)?);
    let (shndx, value) = (number16(words)?, words.number()?);
    let version = number16(words)?;
    let symbol = Symbol {
        name: Name::empty(),
        info,
        other,
        shndx,
        value,
        size: 4,
        version,
    };
    let mut text = String::new(alloc);
    let said = tell(&mut text, &symbol);
    said?;
    Ok(text)
}

fn tell(text: &mut String, symbol: &Symbol) -> Result<(), Fault> {
    let version = symbol.version_index();
    write!(text, "{version}")?;
    for (holds, word) in [
        (symbol.is_hidden_version(), " hidden"),
        (symbol.is_local(), " local"),
        (symbol.is_weak(), " weak"),
        (symbol.is_tls(), " tls"),
        (symbol.is_defined(), " defined"),
        (symbol.is_absolute(), " absolute"),
        (symbol.is_visible_definition(), " visible"),
    ] {
        if holds {
            text.push_str(word)?;
        }
    }
    Ok(())
}

/// A name, as it is written: that of a word, or the `empty` one, or `odd`, which has bytes that are
/// written otherwise.
pub fn name_text(alloc: Global, words: &mut Words) -> Result<String, Fault> {
    let bytes = match words.text()? {
        "empty" => b"".as_slice(),
        "odd" => b"a b%\x7f@".as_slice(),
        word => word.as_bytes(),
    };
    let name = Name::new(alloc, bytes)?;
    Ok(format!(in alloc; "{name}")?)
}

/// Whether a name is spelled so.
pub fn is_spelled(alloc: Global, words: &mut Words) -> Result<String, Fault> {
    let name = name_in(alloc, words)?;
    show(alloc, name.is(words.text()?.as_bytes()))
}

/// A reference of an object to a name that nothing defines, as it is refused.
pub fn missing_symbol(alloc: Global, words: &mut Words) -> Result<String, Fault> {
    let object = name_in(alloc, words)?;
    let name = name_in(alloc, words)?;
    refusal(alloc, DlFault::MissingSymbol(Some(object), name, None))
}

/// Flags of dlopen, as they are refused.
pub fn bad_flags(alloc: Global, words: &mut Words) -> Result<String, Fault> {
    refusal(alloc, DlFault::BadFlags(words.number()?))
}

pub fn refusal(alloc: Global, fault: DlFault) -> Result<String, Fault> {
    Ok(format!(in alloc; "{fault}")?)
}

/// A field of so many bits from the second on of the bytes 0, 1, 2 ..
pub fn field(alloc: Global, words: &mut Words) -> Result<String, Fault> {
    let bytes = [0, 1, 2, 3, 4, 5, 6, 7, 8];
    let value = match words.text()? {
        "16" => u64::from(field16(&bytes, 1)),
        "32" => u64::from(field32(&bytes, 1)),
        "64" => field64(&bytes, 1),
        _ => return Err(Fault::Unclear),
    };
    show(alloc, value)
}
