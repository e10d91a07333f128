ghost use Rattle.std.specs.Prelude.{◌≡◌, ◌↔◌, ◌&&◌, ◌+◌, ◌*◌, ◌/◌, ◌<◌, ◌≤◌, ◌^◌, ℕ, List, drop, length, nat_eq, slice_index, take, Err, IfErr, IfNone, IfOk, IfSome, IsOk, IsTrue, None, OnSome, Some, true};
ghost use Rattle.std.specs.IoError.{error_kind};
ghost use Rattle.std.specs.declared.io.ErrorKind.TheVariants.{OutOfMemory};
ghost use Rattle.base.specs.Layout.{Layout, is_in_limits, is_large};
ghost use Rattle.base.specs.Images.{layout_of};
ghost use Rattle.journal.specs.Files.{HasTail, IsFile, Opens};
ghost use Rattle.journal.specs.Images.{last_image, room_of, storage_of};
ghost use Rattle.journal.specs.Kept.{IsFound};
ghost use Rattle.log_area.specs.Rulings.{IsLaidOut};
ghost use Rattle.pmem_file.specs.declared.opening.OpenError.{OpenError};
ghost use Rattle.pmem_file.specs.Shapes.{HasShape, IsBlank, IsFirstTail, IsForMemory, IsGrowing, IsGrown, IsImageOf, IsNothingBehind, IsOurs, KeepsNames, least_room, room_made, room_needed, room_older, whole};

use crate::gates::is_formatted;
use crate::opening::OpenError;
use base::fault::Fault;
use base::geometry::Geometry;
use byteorder::{ByteOrder, LittleEndian};
use journal::{JournaledImages, Storage, extent_of, image_in, left_files_name_their_shape};
use std::alloc::{AllocError, Global};
use std::fs::File;
use std::io;
use std::io::Read;

// The longest file that is read: an image of 8,589,951,040 bytes, and a journal that an entry of all its lines fits into.
const MOST_BYTES: u64 = 18_253_646_208;

// The part of a file that is read at once.
const PART_BYTES: u64 = 65_536;

// A journal of 1 MiB has room for two thousand commits of a row each, and only then the image is written in place.
const LEAST_ROOM: usize = 131_072;

// One of 4 MiB is long enough for any image: with more, opening would take longer, and no commit less. It has room for all lines
// that are stored to between two images, as far as a large image has no more of them: those of the rows of all transactions at
// once, and of the slots in all gaps.
const AMPLE_ROOM: usize = 524_288;

/// What a file holds: an image, with its number of words and of places for records, and a journal behind it with its room, which may
/// be missing.
#[derive(Clone, Copy, Debug)]
pub(crate) struct Shape {
    pub(crate) words: usize,
    pub(crate) room: usize,
    pub(crate) places: usize,
}

impl Shape {
    ghost use Rattle.std.specs.Prelude.{◌≡◌, ◌<◌, ◌^◌};
    ghost use Rattle.pmem_file.specs.Shapes.{IsMadeFor, room_made, room_older, whole};

    // Of an image of this geometry, with a journal as it is made.
    #[tactic(auto, unfolding(base::specs::Layout::most_slots))]
    fn new(geometry: Geometry) -> Shape
        ensures made { IsMadeFor geometry result }
        ensures room { result.room ≡ room_made geometry }
    {
        Shape {
            words: geometry.words() as usize,
            room: room_made(geometry),
            places: geometry.places() as usize,
        }
    }

    // The same, with a journal as older programs made it.
    #[tactic(auto, using(crate::proofs::Shapes::older_enough), unfolding(base::specs::Layout::most_slots))]
    fn older(geometry: Geometry) -> Shape
        ensures made { IsMadeFor geometry result }
        ensures room { result.room ≡ room_older geometry }
    {
        Shape {
            words: geometry.words() as usize,
            room: room_older(geometry),
            places: geometry.places() as usize,
        }
    }

    /// How many words the file has, with its journal and its tail.
    pub(crate) fn whole(&self) -> usize
        ensures { whole self.now < 2 ^ 58 → result ≡ whole self.now }
    {
        self.words.saturating_add(self.room).saturating_add(8)
    }
}

// How much room a journal is made with: for three entries of all lines, so that the image is written in place once for that many
// words of entries, if an ample one has as much; and at least what it needs.
#[tactic(auto, unfolding(base::specs::Layout::most_slots))]
fn room_made(geometry: Geometry) -> usize
    ensures { result ≡ room_made geometry }
{
    let least = least_room(geometry.words() as usize);
    let several = least.saturating_mul(3).min(AMPLE_ROOM);
    room_needed(geometry).max(several).max(LEAST_ROOM)
}

// How much room older programs made it with.
#[tactic(auto, unfolding(base::specs::Layout::most_slots))]
fn room_older(geometry: Geometry) -> usize
    ensures { result ≡ room_older geometry }
{
    least_room(geometry.words() as usize).max(LEAST_ROOM)
}

// How much room it needs: for an entry of all lines, and behind a large image no more than an ample one.
#[tactic(auto, unfolding(base::specs::Layout::most_slots))]
fn room_needed(geometry: Geometry) -> usize
    ensures { result ≡ room_needed geometry }
{
    let least = least_room(geometry.words() as usize);
    if is_large(geometry) {
        least.min(AMPLE_ROOM)
    } else {
        least
    }
}

fn is_large(geometry: Geometry) -> bool
    ensures { result ≡ is_large geometry.version }
{
    Geometry::is_large_version(geometry.version())
}

// For an entry of all lines: a word that begins it, and of each line its number and its words.
fn least_room(words: usize) -> usize
    requires { words < 2 ^ 58 }
    ensures { result ≡ least_room words }
{
    let lines = words / 8;
    lines.saturating_mul(9).saturating_add(23) / 8 * 8
}

/// What was read of a file.
#[derive(Drop)]
pub(crate) struct Found {
    // Its whole words.
    words: Vec<u64>,

    // Of the file in bytes, which may have more than was read.
    length: u64,
}

impl Found {
    ghost use Rattle.std.specs.Prelude.{◌≡◌, ◌↔◌, ◌*◌, ◌<◌, ◌≤◌, ◌^◌, length, Err, IfErr, IfNone, IfOk, IsOk, IsTrue, OnSome};
    ghost use Rattle.pmem_file.specs.declared.opening.OpenError.{OpenError};
    ghost use Rattle.pmem_file.specs.Shapes.{HasShape, IsForMemory, IsOurs, KeepsNames, padded, whole};

    /// Reads the file part by part, so that only its words are held.
    pub(crate) fn read(alloc: Global, file: &File) -> io::Result<Found> {
        let length = file.metadata()?.len();
        let mut words = Vec::with_capacity(alloc, (length.min(MOST_BYTES) / 8) as usize)?;
        let mut bytes = Vec::with_capacity(alloc, PART_BYTES as usize)?;
        let mut left = MOST_BYTES;
        while left > 0 {
            let size = left.min(PART_BYTES);
            bytes.clear();
            file.take(size).read_to_end(&mut bytes)?;
            push_words(&mut words, bytes.as_slice())?;
            if (bytes.len() as u64) < size {
                return Ok(Found { words, length });
            }
            left -= size;
        }
        Ok(Found { words, length })
    }

    pub(crate) fn is_empty(&self) -> bool
        ensures { IsTrue result ↔ (self.now.length ≡ 0) × (length self.now.words.items ≡ 0) }
    {
        self.length == 0 && self.words.is_empty()
    }

    /// How many words there are.
    pub(crate) fn count(&self) -> usize
        ensures { result ≡ length self.now.words.items }
    {
        self.words.len()
    }

    /// Its words, and 0 for those that are missing of a file of this shape.
    pub(crate) fn into_words(self, shape: Shape) -> io::Result<Vec<u64>>
        requires fits { whole shape < 2 ^ 58 }
        requires within { length self.words.items ≤ whole shape }
        ensures words { IfOk result (λ words. words.items ≡ padded shape self.words.items) }
        ensures memory { IfErr result (λ error. error_kind error ≡ OutOfMemory) }
    {
        let mut words = self.words;
        words.resize(shape.whole(), 0)?;
        Ok(words)
    }

    /// What the file holds. A file that is empty, or in which nothing was ever kept, is one of the geometry that is asked for; with
    /// none asked for, an empty one is missing. Any file is refused that isn't an image of ours, or has more or less than one.
    pub(crate) fn shape(&self, alloc: Global, asked: &Option<Geometry>) -> Result<Shape, OpenError>
        ensures ok { IfOk result (HasShape asked.now self.now.words.items) }
        ensures empty { self.now.length ≡ 0 → length self.now.words.items ≡ 0 → OnSome asked.now (IsOk result) }
        ensures missing { self.now.length ≡ 0 → length self.now.words.items ≡ 0 → IfNone asked.now (result ≡ Err OpenError.Missing) }
        ensures ours { self.now.length ≡ 8 * length self.now.words.items → length self.now.words.items < 2 ^ 61 → IsOurs asked.now self.now.words.items → IfErr result IsForMemory }
        ensures named { IfOk result (KeepsNames asked.now self.now.words.items) }
    {
        if self.is_empty() {
            return new_shape(asked, self.words.as_slice());
        }
        let file = self.words.as_slice();
        if self.length == bytes_of(file.len()) {
            match shape_in(alloc, file, asked) {
                Ok(Some(shape)) => return Ok(shape),
                Ok(None) => {}
                Err(error) => return Err(OpenError::Io(error)),
            }
        }
        Err(self.refusal())
    }

    // Why the file is refused.
    fn refusal(&self) -> OpenError {
        let words = self.words.as_slice();
        match words.get(1) {
            Some(version) if is_formatted(words) => {
                if Geometry::is_known_version(*version) {
                    self.wrong_length()
                } else {
                    OpenError::Image(Fault::Version(*version))
                }
            }
            _ => OpenError::NotAnImage,
        }
    }

    // How the length differs from that of the geometry in its superblock, if one is there.
    fn wrong_length(&self) -> OpenError {
        match self.own_length() {
            Some(length) if length < self.length => OpenError::Trailing {
                extra: self.length - length,
                length,
            },
            Some(length) if self.length < length => OpenError::Short {
                missing: length - self.length,
                length,
            },
            Some(_) if extent_of(self.words.as_slice()).is_none() => OpenError::NoTail,
            _ => OpenError::Image(Fault::BadGeometry),
        }
    }

    // How long it should be by its superblock, and by what is left of a journal behind it.
    fn own_length(&self) -> Option<u64> {
        let geometry = own_geometry(self.words.as_slice())?;
        let shape = Shape::new(geometry);
        for one in [shape, Shape::older(geometry)] {
            if self.ends_with_journal(one) {
                return Some(bytes_of(one.whole()));
            }
        }
        if begins_entry(self.words.as_slice(), shape.words) {
            return Some(bytes_of(shape.whole()));
        }
        Some(bytes_of(shape.words))
    }

    // Whether it is as long as a file of this shape, or a journal of one is behind its image: to cut it off might lose what was kept.
    fn ends_with_journal(&self, shape: Shape) -> bool {
        let whole = shape.whole();
        if self.length == bytes_of(whole) {
            return true;
        }
        match self.words.get(..whole) {
            Some(file) => extent_of(file).is_some(),
            None => false,
        }
    }
}

// Adds the whole words of these bytes.
fn push_words(words: &mut Vec<u64>, bytes: &[u8]) -> Result<(), AllocError> {
    let start = words.len();
    let count = bytes.len() / 8;
    words.resize(start.saturating_add(count), 0)?;
    LittleEndian::read_u64_into(&bytes[..8 * count], &mut words.as_mut_slice()[start..]);
    Ok(())
}

// Of a file without words.
#[tactic(auto, using(crate::proofs::Shapes::nothing, crate::proofs::Shapes::names_nothing))]
fn new_shape(asked: &Option<Geometry>, file: &[u64]) -> Result<Shape, OpenError>
    requires { length file.now ≡ 0 }
    ensures ok { IfOk result (HasShape asked.now file.now) }
    ensures empty { OnSome asked.now (IsOk result) }
    ensures missing { IfNone asked.now (result ≡ Err OpenError.Missing) }
    ensures ours { IsOurs asked.now file.now → IfErr result IsForMemory }
    ensures named { IfOk result (KeepsNames asked.now file.now) }
{
    match asked {
        Some(geometry) => Ok(Shape::new(*geometry)),
        None => Err(OpenError::Missing),
    }
}

// Whether an entry of some lines begins behind an image of `words`: how many payloads it has, and the bit of its pass.
fn begins_entry(file: &[u64], words: usize) -> bool {
    match file.get(words) {
        Some(first) => *first > 1 && *first % 18 <= 1 && *first / 18 <= (words / 8) as u64,
        None => false,
    }
}

// What the file of these words holds, if it is one of ours: an image alone, as closing leaves it, one with a journal, or
// one that was being made longer.
fn shape_in(alloc: Global, file: &[u64], asked: &Option<Geometry>) -> io::Result<Option<Shape>>
    ensures some { IfOk result (λ found. IfSome found (HasShape asked.now file.now)) }
    ensures none { IfOk result (λ found. IfNone found (¬ IsOurs asked.now file.now)) }
    ensures memory { IfErr result (λ error. error_kind error ≡ OutOfMemory) }
    ensures named { IfOk result (λ found. IfSome found (KeepsNames asked.now file.now)) }
{
    match layout_of(file, asked) {
        Some(own) => Ok(Some(Shape::new(own))),
        None => match extent_of(file) {
            Some((words, room)) => journaled_shape(alloc, file, words, room, asked),
            None => Ok(growing_shape(file, asked)),
        },
    }
}

// The shape of a file with a tail. `None` if what it stands for isn't an image, or if the journal hasn't the room that it needs.
#[tactic(auto, using(crate::proofs::Shapes::journaled))]
fn journaled_shape(
    alloc: Global,
    file: &[u64],
    words: usize,
    room: usize,
    asked: &Option<Geometry>,
) -> io::Result<Option<Shape>>
    requires file { IsFile words room (length file.now) }
    requires tail { HasTail words room file.now }
    ensures some { IfOk result (λ found. IfSome found (HasShape asked.now file.now)) }
    ensures none { IfOk result (λ found. IfNone found ((image : List ℕ) (own : Layout) → room_needed own ≤ room → Opens words room file.now image → ¬ IsImageOf asked.now own image)) }
    ensures memory { IfErr result (λ error. error_kind error ≡ OutOfMemory) }
    ensures named { IfOk result (λ found. IfSome found (λ shape. (shape.words ≡ words) × (shape.room ≡ room))) }
{
    let image = image_in(alloc, file, words, room)?;
    let Some(own) = layout_of(image.as_slice(), asked) else {
        return Ok(None);
    };
    if room < room_needed(own) {
        return Ok(None);
    }
    Ok(Some(Shape {
        words,
        room,
        places: own.places() as usize,
    }))
}

/// Opening a file that may be found of images, once all has stopped, finds the words and the room that they have.
pub fn left_files_keep_their_shape<S: Storage>(
    alloc: Global,
    images: &JournaledImages<S>,
    file: &[u64],
    asked: &Option<Geometry>,
) -> io::Result<Option<(usize, usize)>>
    requires found { IsFound (S.may_hold (storage_of images.now)) (length (last_image images.now) + room_of images.now + 8) file.now }

    // It returns these two.
    ensures same { IfOk result (λ found. IfSome found (λ names. names ≡ (length (last_image images.now), room_of images.now))) }

    // At None it isn't a file of ours.
    ensures none { IfOk result (λ found. IfNone found (¬ IsOurs asked.now file.now)) }
{
    let _ = left_files_name_their_shape(images, file);
    left_files_are_not_alone(images, file, asked);
    match shape_in(alloc, file, asked)? {
        Some(shape) => Ok(Some((shape.words, shape.room))),
        None => Ok(None),
    }
}

// No such file is an image alone.
fn left_files_are_not_alone<S: Storage>(
    images: &JournaledImages<S>,
    file: &[u64],
    asked: &Option<Geometry>,
)
    requires found { IsFound (S.may_hold (storage_of images.now)) (length (last_image images.now) + room_of images.now + 8) file.now }
    ensures { (own : Layout) → ¬ IsImageOf asked.now own file.now }
{
    let _ = left_files_name_their_shape(images, file);
    asked_in_limits(asked);
}

// The layout that is asked for is in the limits.
fn asked_in_limits(asked: &Option<Geometry>)
    ensures { (own : Layout) → asked.now ≡ Some own → is_in_limits own ≡ true }
{
    if let Some(geometry) = asked {
        let _ = geometry.slots();
    }
}

// The shape of a file that was being made longer, by a program of now or an older one.
fn growing_shape(file: &[u64], asked: &Option<Geometry>) -> Option<Shape>
    ensures some { IfSome result (HasShape asked.now file.now) }
    ensures none { IfNone result (¬ IsGrowing asked.now file.now) }
{
    let own = own_geometry(file).or(*asked)?;
    match grown_shape(file, asked, Shape::new(own)) {
        Some(shape) => Some(shape),
        None => grown_shape(file, asked, Shape::older(own)),
    }
}

/// How many words the image has of a file of these words that was being made longer, by a program of now or an older one: behind
/// it there is nothing yet, except for words of a journal's first tail.
#[tactic(auto, using(crate::proofs::Shapes::grown, crate::proofs::Shapes::ungrown))]
pub fn grown_image(file: &[u64]) -> Option<usize>
    // Exactly of these files (`IsGrown`).
    ensures some { IfSome result (λ size. IsGrown size file.now) }
    ensures none { IfNone result ((size : ℕ) → ¬ IsGrown size file.now) }
{
    let own = own_geometry(file)?;
    let shape = Shape::new(own);
    if is_grown(file, shape) {
        return Some(shape.words);
    }
    let older = Shape::older(own);
    if is_grown(file, older) {
        return Some(older.words);
    }
    None
}

// Whether the file was being made as long as this shape: behind its image there is nothing yet, except for words of the first tail.
fn is_grown(file: &[u64], shape: Shape) -> bool
    requires { whole shape < 2 ^ 58 }
    ensures { IsTrue result ↔ (length file.now ≡ whole shape) × IsNothingBehind shape.words shape.room (drop shape.words file.now) }
{
    file.len() == shape.whole() && is_first_behind(&file[shape.words..], shape)
}

// This shape, if the file was being made as long: behind its image there is nothing yet, except for words of the first tail.
fn grown_shape(file: &[u64], asked: &Option<Geometry>, shape: Shape) -> Option<Shape>
    requires { whole shape < 2 ^ 58 }
    ensures some { IfSome result (HasShape asked.now file.now) }
    ensures none { IfNone result ((own : Layout) → length file.now ≡ whole shape → IsNothingBehind shape.words shape.room (drop shape.words file.now) → ¬ IsImageOf asked.now own (take shape.words file.now)) }
{
    if !is_grown(file, shape) {
        return None;
    }
    let own = layout_of(&file[..shape.words], asked)?;
    Some(Shape {
        words: shape.words,
        room: shape.room,
        places: own.places() as usize,
    })
}

// Whether there is nothing behind an image but some words of a tail that doesn't count.
fn is_first_behind(behind: &[u64], shape: Shape) -> bool
    requires { length behind.now ≡ shape.room + 8 }
    ensures { IsTrue result ↔ IsNothingBehind shape.words shape.room behind.now }
{
    are_zero(&behind[..shape.room]) && is_first_tail(&behind[shape.room..], shape)
}

fn are_zero(words: &[u64]) -> bool
    ensures { IsTrue result ↔ ((word : ℕ) → word < length words.now → slice_index words.now word ≡ 0) }
{
    words.iter().all(|word| *word == 0)
}

// Whether some of these words are those of a tail that doesn't count, and the others 0.
fn is_first_tail(tail: &[u64], shape: Shape) -> bool
    requires { length tail.now ≡ 8 }
    ensures { IsTrue result ↔ IsFirstTail shape.words shape.room tail.now }
{
    if tail[0] != 0 {
        return false;
    }
    let names = [0, shape.words as u64, shape.room as u64, 0, 0, 0, 0, 0];
    tail.iter()
        .zip(names.iter())
        .all(|(word, name)| *word == 0 || word == name)
}

// The layout of an image of these words. If nothing was ever kept in it, that is the one that is asked for.
fn layout_of(image: &[u64], asked: &Option<Geometry>) -> Option<Geometry>
    ensures some { IfSome result (λ own. IsImageOf asked.now own image.now) }
    ensures none { IfNone result ((own : Layout) → ¬ IsImageOf asked.now own image.now) }
{
    match blank_layout(image, asked) {
        Some(geometry) => Some(geometry),
        None => laid_out(image),
    }
}

// The layout that is asked for, if one is and nothing was ever kept in these words.
fn blank_layout(image: &[u64], asked: &Option<Geometry>) -> Option<Geometry>
    ensures some { IfSome result (λ own. (asked.now ≡ Some own) × IsBlank own image.now) }
    ensures none { IfNone result ((own : Layout) → asked.now ≡ Some own → ¬ IsBlank own image.now) }
{
    match asked {
        Some(geometry) if is_blank(image, *geometry) => Some(*geometry),
        _ => None,
    }
}

// The layout of an image of these words by its superblock. `None` if these aren't the words of one.
fn laid_out(image: &[u64]) -> Option<Geometry>
    ensures some { IfSome result (λ own. IsLaidOut own image.now) }
    ensures none { IfNone result ((own : Layout) → ¬ IsLaidOut own image.now) }
{
    if !is_formatted(image) {
        return None;
    }
    let geometry = own_geometry(image)?;
    if has_good_end(image, geometry.words()) {
        Some(geometry)
    } else {
        None
    }
}

// Whether the superblock says that the image has this many words, as it has, and ends with zeros.
fn has_good_end(image: &[u64], total: u64) -> bool
    requires { 8 ≤ length image.now }
    ensures { result ≡ (nat_eq (slice_index image.now 5) total && nat_eq (length image.now) (slice_index image.now 5) && nat_eq (slice_index image.now 6) 0 && nat_eq (slice_index image.now 7) 0) }
{
    image[5] == total && image.len() as u64 == image[5] && image[6] == 0 && image[7] == 0
}

// Whether nothing was ever kept: it has the length of a new image, and word 0 and those of all slots are 0.
fn is_blank(image: &[u64], geometry: Geometry) -> bool
    ensures { IsTrue result ↔ IsBlank geometry image.now }
{
    if image.len() as u64 != geometry.words() || geometry.slots() == 0 || image[0] != 0 {
        return false;
    }
    are_zero(&image[geometry.slot_start(0)..])
}

// The geometry that a superblock names.
fn own_geometry(file: &[u64]) -> Option<Geometry>
    ensures some { IfSome result (λ own. own ≡ layout_of file.now) }
    ensures limits { OnSome result (IsTrue (is_in_limits (layout_of file.now))) }
    ensures none { IfNone result (5 ≤ length file.now → ¬ IsTrue (is_in_limits (layout_of file.now))) }
{
    let [_, version, slots, places, window] = *file.first_chunk::<5>()?;
    Geometry::of_version(version, slots, places, window).ok()
}

/// The bytes of `words` words.
pub(crate) fn bytes_of(words: usize) -> u64
    ensures { words < 2 ^ 61 → result ≡ 8 * words }
{
    (words as u64).saturating_mul(8)
}
