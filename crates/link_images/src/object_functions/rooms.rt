//! Room for constructors.

ghost use Rattle.std.specs.Prelude.{◌≡◌, ℕ, ◌≤◌, ◌<◌, List, Some, IfOk, Contains, length, map};
ghost use Rattle.std.specs.List.{flat_map, slice_get};
ghost use Rattle.ld_base.specs.declared.linking.Loaded.{Loaded as loaded};
ghost use Rattle.seg_image.specs.declared.image.Image.{Image as image};
ghost use Rattle.history_graph.specs.Initialised.{InitOrder, program_last};
ghost use Rattle.history_state.specs.Links.{found_edges};
ghost use Rattle.history_state.specs.Objects.{serial_of};
ghost use Rattle.history_state.specs.State.{Linked, State};
ghost use Rattle.history_calls.specs.Functions.{AreOf, constructors, object_of};
ghost use Rattle.link_images.specs.ImageReads.Reads.{ArePrepared, IsImageOf};
ghost use Rattle.link_images.specs.ObjectFunctions.Rooms.{AreInRow, AreRooms, CanReadAll, IsPlace, IsRoom, room_object};

use crate::image_reads::{constructor_count, push_constructors};
use crate::object_functions::order::constructor_order;
use history_event::{Addresses, Function, Functions};
use ld_base::{Loaded, Serial};
use seg_image::Image;
use std::alloc::{AllocError, Global};
use std::marker::Model;

/// Room for the constructors of an object.
#[derive(Drop)]
struct Room {
    object: Serial,
    /// Its place among the new objects.
    place: usize,
    addresses: Vec<u64>,
}

impl Model for Room {
    ghost use Rattle.std.specs.Prelude.{◌≡◌, []};
    ghost use Rattle.std.specs.Vec.{vec_capacity, vec_len};
    ghost use Rattle.link_images.specs.ObjectFunctions.Rooms.{RoomFor};

    ghost Value = { RoomFor };

    ghost view = { λ r. record { object = r.object; place = r.place; room = vec_capacity r.addresses } };

    ghost invariant = { λ r. (r.addresses.items ≡ []) × (vec_len r.addresses ≡ 0) };
}

impl Room {
    /// Room for the constructors of the object with a serial, which is one of these.
    fn new(alloc: Global, serial: Serial, added: &[Loaded]) -> Result<Self, AllocError>
        requires member { Contains (map serial_of added.now) serial }
        requires row { AreInRow added.now }
        ensures object { IfOk result (λ room. room.object ≡ serial) }
        ensures enough { IfOk result (IsRoom added.now) }
    {
        let place = place_of(serial, added);
        let count = constructor_count(&added[place].object);
        Ok(Room {
            object: serial,
            place,
            addresses: Vec::with_capacity(alloc, count)?,
        })
    }

    /// The constructors of the object, of its image.
    fn filled(self, added: &[Loaded], images: &[Image]) -> Function
        requires room { IsRoom added.now self }
        requires can { CanReadAll added.now images.now }
        ensures object { result.object ≡ self.object }
        ensures addresses { (o : loaded) (i : image) → slice_get added.now self.place ≡ Some o → slice_get images.now self.place ≡ Some i
            → (m : Linked) → IsImageOf m o.object o.base i → result.addresses ≡ constructors m }
    {
        let Room {
            object,
            place,
            mut addresses,
        } = self;
        let loaded = &added[place];
        push_constructors(&mut addresses, &images[place], &loaded.object, loaded.base);
        Function {
            object,
            addresses: Addresses::from(addresses),
        }
    }
}

/// Room for the constructors of new objects, in the order in which they run.
#[derive(Drop)]
pub struct ConstructorRooms {
    rooms: Vec<Room>,
    functions: Vec<Function>,
}

impl Model for ConstructorRooms {
    ghost use Rattle.std.specs.Prelude.{◌≡◌, ◌≤◌, List, []};
    ghost use Rattle.std.specs.Vec.{vec_capacity, vec_len};
    ghost use Rattle.link_images.specs.ObjectFunctions.Rooms.{RoomFor};

    ghost Value = { List RoomFor };

    ghost view = { λ r. r.rooms.items };

    ghost invariant = { λ r. (r.functions.items ≡ []) × (vec_len r.functions ≡ 0) × (vec_len r.rooms ≤ vec_capacity r.functions) };
}

impl ConstructorRooms {
    /// The order in which the constructors of new objects run, whose serials follow one another, with room
    /// for their addresses.
    ///
    /// # Errors
    ///
    /// Want of memory.
    pub fn new(alloc: Global, added: &[Loaded]) -> Result<Self, AllocError>
        requires { AreInRow added.now }
        ensures order { IfOk result (λ rooms. InitOrder (flat_map found_edges added.now) (program_last (Some 1) (map serial_of added.now))
            (map room_object rooms)) }
        ensures enough { IfOk result (AreRooms added.now) }
    {
        let order = constructor_order(alloc, added)?;
        let rooms = rooms_for(alloc, order.as_slice(), added)?;
        let functions = Vec::with_capacity(alloc, rooms.len())?;
        Ok(ConstructorRooms { rooms, functions })
    }

    /// The constructors, of the objects' images.
    pub fn fill(self, added: &[Loaded], images: &[Image]) -> Functions
        requires rooms { AreRooms added.now self }
        requires can { CanReadAll added.now images.now }
        ensures order { map object_of result ≡ map room_object self }
        ensures addresses { (s : State) → ArePrepared s added.now images.now → AreOf s constructors result }
    {
        let ConstructorRooms {
            rooms,
            mut functions,
        } = self;
        for room in rooms {
            functions.push_reserved(room.filled(added, images));
        }
        Functions::from(functions)
    }
}

/// The place of the object with a serial, which is one of these.
fn place_of(serial: Serial, added: &[Loaded]) -> usize
    requires member { Contains (map serial_of added.now) serial }
    requires row { AreInRow added.now }
    ensures inside { result < length added.now }
    ensures is { IsPlace added.now serial result }
{
    (serial.number() - added[0].serial.number()) as usize
}

/// Room for the constructors of each, in this order.
fn rooms_for(alloc: Global, order: &[Serial], added: &[Loaded]) -> Result<Vec<Room>, AllocError>
    requires members { (d : ℕ) → Contains order.now d → Contains (map serial_of added.now) d }
    requires row { AreInRow added.now }
    ensures objects { IfOk result (λ rooms. map room_object rooms.items ≡ order.now) }
    ensures enough { IfOk result (λ rooms. AreRooms added.now rooms.items) }
{
    let mut rooms = Vec::with_capacity(alloc, order.len())?;
    for serial in order {
        rooms.push(Room::new(alloc, *serial, added)?)?;
    }
    Ok(rooms)
}
