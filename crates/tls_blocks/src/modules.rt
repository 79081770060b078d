//! The modules.

ghost use Rattle.std.specs.Prelude.{◌≡◌, ◌==◌, ◌+◌, ◌-◌, ◌^◌, ◌<◌, ◌≤◌, Option, None, Some, false};
ghost use Rattle.std.specs.Prelude.{[], find, if◌then◌else◌, IfOk, IsOk, IsSome, IsSomeAnd, IsTrue, OnErr};
ghost use Rattle.std.specs.Prelude.{OnOk};
ghost use Rattle.tls_blocks.specs.Places.{IsOffset, end_with, tp_with};
ghost use Rattle.tls_blocks.specs.Numbers.{AreNumbered, HasGapAt, IsLeastFree, module_at, with_module, without_module};

use crate::placing::{alignment, static_offset};
use history_event::Module;
use ld_base::{Serial, TlsPlace, TlsSeg};
use std::alloc::{AllocError, Global};
use std::marker::Model;

/// The number of the program's serial.
const PROGRAM: u64 = 1;

/// The modules of the objects that are loaded. Contracts see them in the order of their numbers,
/// with the end of the last static block, tp's distance from the start of its area, the generation,
/// and the room that is kept for more.
#[derive(Drop)]
pub struct TlsModules {
    /// In the order of their numbers.
    modules: Vec<Module>,
    size: u64,
    tp: u64,
    generation: u64,
}

impl Model for TlsModules {
    ghost use Rattle.std.specs.Prelude.{◌-◌, ◌<◌, ◌^◌};
    ghost use Rattle.std.specs.Vec.{vec_capacity, vec_len};
    ghost use Rattle.tls_blocks.specs.Numbers.{ModuleTable, AreNumbered};

    ghost Value = { ModuleTable };

    ghost view = { λ m. record {
      modules = m.modules.items;
      size = m.size;
      tp = m.tp;
      generation = m.generation;
      spare = vec_capacity m.modules - vec_len m.modules;
    } };

    ghost invariant = { λ m. AreNumbered m.modules.items × (m.tp < 2 ^ 20) };
}

impl TlsModules {
    /// No modules.
    pub fn new(alloc: Global) -> Self
        ensures modules { result.modules ≡ [] }
        ensures size { result.size ≡ 0 }
        ensures tp { result.tp ≡ 0 }
        ensures generation { result.generation ≡ 0 }
    {
        TlsModules {
            modules: Vec::new(alloc),
            size: 0,
            tp: 0,
            generation: 0,
        }
    }

    /// Adds the module of an object: a late one, or one with a place in each static area. It gets
    /// the least number that is free. The segment of object 1, which is the program, sets where tp
    /// stands in its area: behind the area's start by the segment's address modulo its alignment.
    ///
    /// # Errors
    ///
    /// Want of memory, where no room was made. Nothing is added then.
    pub fn add(&mut self, serial: Serial, seg: TlsSeg, late: bool) -> Result<TlsPlace, AllocError>
        requires align { seg.align ≤ 2 ^ 20 }
        requires memsz { seg.memsz ≤ 2 ^ 20 }
        requires size { self.old.size ≤ 2 ^ 62 }
        requires generation { self.old.generation < 2 ^ 64 - 1 }
        ensures number { IfOk result (λ place. IsLeastFree self.old.modules place.number) }
        ensures late { IfOk result (λ place. IsTrue late → place.offset ≡ None) }
        ensures static_place { IfOk result (λ place.
            late ≡ false → IsSomeAnd place.offset (IsOffset (tp_with serial seg self.old.tp) self.old.size seg)) }
        ensures modules { IfOk result (λ place.
            self.new.modules ≡ with_module (record { number = place.number; serial = serial; offset = place.offset }) self.old.modules) }
        ensures size { IfOk result (λ place. self.new.size ≡ end_with place.offset seg self.old.size) }
        ensures tp { OnOk result (self.new.tp ≡ (if late then self.old.tp else tp_with serial seg self.old.tp)) }
        ensures generation { OnOk result (self.new.generation ≡ self.old.generation + 1) }
        ensures room { 0 < self.old.spare → IsOk result }
        ensures spare { self.old.spare ≤ self.new.spare + 1 }
        ensures err_modules { OnErr result (self.new.modules ≡ self.old.modules) }
        ensures err_size { OnErr result (self.new.size ≡ self.old.size) }
        ensures err_tp { OnErr result (self.new.tp ≡ self.old.tp) }
        ensures err_generation { OnErr result (self.new.generation ≡ self.old.generation) }
    {
        let gap = first_gap(self.modules.as_slice());
        let number = gap as u64 + 1;
        if late {
            let offset = None;
            self.put(
                gap,
                Module {
                    number,
                    serial,
                    offset,
                },
            )?;
            return Ok(TlsPlace { number, offset });
        }
        let tp = tp_with(serial, seg, self.tp);
        let end = static_offset(tp, self.size, seg);
        let offset = Some(end);
        self.put(
            gap,
            Module {
                number,
                serial,
                offset,
            },
        )?;
        self.tp = tp;
        self.size = end + seg.memsz;
        Ok(TlsPlace { number, offset })
    }

    /// Makes room for so many modules more.
    ///
    /// # Errors
    ///
    /// Want of memory. Nothing has changed then.
    pub fn make_room(&mut self, more: u64) -> Result<(), AllocError>
        ensures room { OnOk result (more ≤ self.new.spare) }
        ensures spare { self.old.spare ≤ self.new.spare }
        ensures modules { self.new.modules ≡ self.old.modules }
        ensures size { self.new.size ≡ self.old.size }
        ensures tp { self.new.tp ≡ self.old.tp }
        ensures generation { self.new.generation ≡ self.old.generation }
    {
        self.modules.reserve(more as usize)
    }

    /// Removes the module with a number.
    pub fn remove(&mut self, module: u64)
        requires there { IsSome (module_at self.old.modules «module») }
        requires generation { self.old.generation < 2 ^ 64 - 1 }
        ensures modules { self.new.modules ≡ without_module «module» self.old.modules }
        ensures size { self.new.size ≡ self.old.size }
        ensures tp { self.new.tp ≡ self.old.tp }
        ensures generation { self.new.generation ≡ self.old.generation + 1 }
        ensures spare { self.old.spare ≤ self.new.spare }
    {
        self.modules.retain(|other| other.number != module);
        self.generation += 1;
    }

    /// The same modules once more, in memory of their own.
    ///
    /// # Errors
    ///
    /// Want of memory.
    pub fn copy(&self, alloc: Global) -> Result<Self, AllocError>
        ensures modules { IfOk result (λ m. m.modules ≡ self.now.modules) }
        ensures size { IfOk result (λ m. m.size ≡ self.now.size) }
        ensures tp { IfOk result (λ m. m.tp ≡ self.now.tp) }
        ensures generation { IfOk result (λ m. m.generation ≡ self.now.generation) }
    {
        Ok(TlsModules {
            modules: Vec::from_slice(alloc, self.modules.as_slice())?,
            ..*self
        })
    }

    /// Where the last static block ends, behind tp.
    pub fn static_size(&self) -> u64
        ensures { result ≡ self.now.size }
    {
        self.size
    }

    /// How far behind the start of its area tp stands.
    pub fn tp(&self) -> u64
        ensures { result ≡ self.now.tp }
    {
        self.tp
    }

    /// The modules in the order of their numbers.
    pub fn as_slice(&self) -> &[Module]
        ensures { result.now ≡ self.now.modules }
    {
        self.modules.as_slice()
    }

    /// How many modules were added and removed.
    pub fn generation(&self) -> u64
        ensures { result ≡ self.now.generation }
    {
        self.generation
    }

    /// The module with a number.
    pub fn find(&self, number: u64) -> Option<Module>
        ensures { result ≡ module_at self.now.modules number }
    {
        module_with(self.modules.as_slice(), number)
    }

    /// Puts a module at a gap.
    fn put(&mut self, gap: usize, module: Module) -> Result<(), AllocError>
        requires gap { HasGapAt self.old.modules gap }
        requires number { «module».number ≡ gap + 1 }
        requires generation { self.old.generation < 2 ^ 64 - 1 }
        ensures modules { OnOk result (self.new.modules ≡ with_module «module» self.old.modules) }
        ensures generation { OnOk result (self.new.generation ≡ self.old.generation + 1) }
        ensures size { self.new.size ≡ self.old.size }
        ensures tp { self.new.tp ≡ self.old.tp }
        ensures room { 0 < self.old.spare → IsOk result }
        ensures spare { self.old.spare ≤ self.new.spare + 1 }
        ensures err_modules { OnErr result (self.new.modules ≡ self.old.modules) }
        ensures err_generation { OnErr result (self.new.generation ≡ self.old.generation) }
    {
        self.modules.insert(gap, module)?;
        self.generation += 1;
        Ok(())
    }
}

/// The first place whose module has a greater number than its place gives it.
fn first_gap(modules: &[Module]) -> usize
    requires { AreNumbered modules.now }
    ensures { HasGapAt modules.now result }
{
    for (place, module) in modules.iter().enumerate() {
        if module.number != place as u64 + 1 {
            return place;
        }
    }
    modules.len()
}

/// The module with a number.
fn module_with(modules: &[Module], number: u64) -> Option<Module>
    ensures { result ≡ module_at modules.now number }
{
    for module in modules {
        if module.number == number {
            return Some(*module);
        }
    }
    None
}

/// tp's distance from the start of its area, once there is this module too.
fn tp_with(serial: Serial, seg: TlsSeg, tp: u64) -> u64
    requires { seg.align ≤ 2 ^ 20 }
    ensures value { result ≡ tp_with serial seg tp }
    ensures short { tp < 2 ^ 20 → result < 2 ^ 20 }
{
    if serial.number() == PROGRAM {
        seg.vaddr % alignment(seg)
    } else {
        tp
    }
}
