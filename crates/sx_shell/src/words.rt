//! The words of a command.
ghost use Rattle.std.specs.Prelude.{◌≡◌, ◌≤◌, ◌↔◌, Some, None, IfOk, IfSome, IfNone, IsSome, IsTrue, length, map, slice_get};
ghost use Rattle.std.specs.String.{string_bytes};
ghost use Rattle.sx_shell.specs.Plain.{place_of_option, plain_of};
ghost use Rattle.sx_shell.specs.Words.{IsLive, are_names, can_create, check_words, command_words, create_words, is_name};
ghost use Rattle.sx_shell.specs.Words.{is_option, live_words, number_of, plain_words, show_words, target_of, wanted};

use crate::command::{Target, Wanted};
use std::alloc::{AllocError, Global};
use sx_tree::bytes::Bytes;
use sx_tree::text::{Text, TextFault};

/// The words behind a command but for the first `--`: those before it, and those behind it.
#[derive(Clone, Copy)]
struct Plain<'a> {
    front: &'a [String],
    back: &'a [String],
}

impl<'a> Plain<'a> {
    /// None where an option stands before the first `--`.
    fn new(words: &'a [String]) -> Option<Plain<'a>>
        ensures some { IfSome result (λ plain. plain_words (map string_bytes words.now) ≡ Some (plain_of plain)) }
        ensures none { IfNone result (plain_words (map string_bytes words.now) ≡ None) }
    {
        let (front, rest) = words.split_at(place_of_option(words));
        match rest {
            [] => Some(Plain { front, back: rest }),
            [word, back @ ..] => {
                if word.as_str() == "--" {
                    Some(Plain { front, back })
                } else {
                    None
                }
            }
        }
    }

    fn len(&self) -> usize
        ensures { result ≡ length (plain_of self.now) }
    {
        self.front.len() + self.back.len()
    }

    fn get(&self, at: usize) -> Option<&'a str>
        ensures some { IfSome result (λ word. slice_get (plain_of self.now) at ≡ Some word.now) }
        ensures none { IfNone result (slice_get (plain_of self.now) at ≡ None) }
    {
        if at < self.front.len() {
            Some(self.front[at].as_str())
        } else {
            let word = self.back.get(at - self.front.len())?;
            Some(word.as_str())
        }
    }
}

impl Plain<'_> {
    // What the command wants with these words.
    fn wanted(&self, alloc: Global, command: &str) -> Result<Option<Wanted>, AllocError>
        ensures { IfOk result (λ asked. asked ≡ command_words command.now (plain_of self.now)) }
    {
        if command == "live" {
            self.live(alloc)
        } else if command == "create" {
            self.create(alloc)
        } else if command == "show" {
            self.show(alloc)
        } else if command == "check" {
            self.check(alloc)
        } else {
            Ok(None)
        }
    }

    fn live(&self, alloc: Global) -> Result<Option<Wanted>, AllocError>
        ensures { IfOk result (λ asked. asked ≡ live_words (plain_of self.now)) }
    {
        match (self.get(0), self.len()) {
            (Some(file), 1) => {
                let file = bytes_of(alloc, file)?;
                Ok(Some(Wanted::Live { file }))
            }
            _ => Ok(None),
        }
    }

    fn check(&self, alloc: Global) -> Result<Option<Wanted>, AllocError>
        ensures { IfOk result (λ asked. asked ≡ check_words (plain_of self.now)) }
    {
        match (self.get(0), self.len()) {
            (Some(file), 1) => {
                let file = bytes_of(alloc, file)?;
                Ok(Some(Wanted::Check { file }))
            }
            _ => Ok(None),
        }
    }

    fn show(&self, alloc: Global) -> Result<Option<Wanted>, AllocError>
        ensures { IfOk result (λ asked. asked ≡ show_words (plain_of self.now)) }
    {
        let (Some(file), Some(revision), 2) = (self.get(0), self.get(1), self.len()) else {
            return Ok(None);
        };
        let Some(revision) = number(alloc, revision)? else {
            return Ok(None);
        };
        let file = bytes_of(alloc, file)?;
        Ok(Some(Wanted::Show { file, revision }))
    }

    // The window can be 1 alone.
    fn create(&self, alloc: Global) -> Result<Option<Wanted>, AllocError>
        ensures { IfOk result (λ asked. asked ≡ create_words (plain_of self.now)) }
    {
        let Some(file) = self.get(0) else {
            return Ok(None);
        };
        if self.len() > 4 {
            return Ok(None);
        }
        let window = self.get(1).unwrap_or("1");
        let from = self.get(2).unwrap_or("validFrom");
        let to = self.get(3).unwrap_or("validTo");
        if !can_create(window, from, to) {
            return Ok(None);
        }
        Ok(Some(Wanted::Create {
            file: bytes_of(alloc, file)?,
            window: 1,
            from: name(alloc, from)?,
            to: name(alloc, to)?,
        }))
    }
}

// The place of the first option, and that behind the words where there is none.
fn place_of_option(words: &[String]) -> usize
    ensures place { result ≡ place_of_option (map string_bytes words.now) }
    ensures within { result ≤ length words.now }
{
    let mut place = 0;
    for word in words {
        if is_option(word.as_bytes()) {
            return place;
        }
        place += 1;
    }
    place
}

// Whether the word begins with `-` and has two bytes or more.
fn is_option(word: &[u8]) -> bool
    ensures { result ≡ is_option word.now }
{
    match word {
        [first, _, ..] => *first == b'-',
        _ => false,
    }
}

/// The file of `live FILE`, where the words are that command.
pub fn live_file(words: &[String]) -> Option<&str>
    ensures live { IsSome result ↔ IsLive (map string_bytes words.now) }
    ensures file { IfSome result (λ file. wanted (map string_bytes words.now) ≡ Some (Wanted.Live file.now)) }
{
    let [command, rest @ ..] = words else {
        return None;
    };
    if command.as_str() != "live" {
        return None;
    }
    let plain = Plain::new(rest)?;
    match (plain.get(0), plain.len()) {
        (Some(file), 1) => Some(file),
        _ => None,
    }
}

/// What the words behind the program's name ask for, where they are a command.
pub fn wanted(alloc: Global, words: &[String]) -> Result<Option<Wanted>, AllocError>
    ensures { IfOk result (λ asked. asked ≡ wanted (map string_bytes words.now)) }
{
    let [command, rest @ ..] = words else {
        return Ok(None);
    };
    match Plain::new(rest) {
        Some(plain) => plain.wanted(alloc, command.as_str()),
        None => Ok(None),
    }
}

/// Which command the words are, and over which file.
pub fn target(alloc: Global, words: &[String]) -> Result<Target, AllocError>
    ensures { IfOk result (λ target. target ≡ target_of (wanted (map string_bytes words.now))) }
{
    match wanted(alloc, words)? {
        Some(Wanted::Live { file }) => Ok(Target::Live(file)),
        Some(Wanted::Create { file, .. }) => Ok(Target::Create(file)),
        Some(Wanted::Show { file, .. } | Wanted::Check { file }) => Ok(Target::Still(file)),
        None => Ok(Target::Usage),
    }
}

// The bytes of a word.
fn bytes_of(alloc: Global, word: &str) -> Result<Bytes, AllocError>
    ensures { IfOk result (λ bytes. bytes ≡ word.now) }
{
    let bytes = word.as_bytes().to_vec(alloc)?;
    Ok(Bytes::from_vec(bytes))
}

// A number below 2^32 in decimal, without sign or leading zero.
fn number(alloc: Global, digits: &str) -> Result<Option<u32>, AllocError>
    ensures { IfOk result (λ number. number ≡ number_of digits.now) }
{
    let Ok(number) = digits.parse::<u32>() else {
        return Ok(None);
    };
    let canonical = number.to_string(alloc)?;
    Ok(if canonical.as_str() == digits {
        Some(number)
    } else {
        None
    })
}

// Whether a volume can be born with these words.
fn can_create(window: &str, from: &str, to: &str) -> bool
    ensures { result ≡ can_create window.now from.now to.now }
{
    window == "1" && are_names(from, to)
}

// Whether the names of fields are such, and differ.
fn are_names(from: &str, to: &str) -> bool
    ensures { result ≡ are_names from.now to.now }
{
    is_name(from) && is_name(to) && from != to
}

// Whether the name has 1 to 64 bytes.
fn is_name(name: &str) -> bool
    ensures { result ≡ is_name name.now }
{
    1 <= name.len() && name.len() <= 64
}

// The text of a name.
fn name(alloc: Global, name: &str) -> Result<Text, AllocError>
    requires { IsTrue (is_name name.now) }
    ensures { IfOk result (λ text. text ≡ name.now) }
{
    match Text::new(alloc, name.as_bytes()) {
        Ok(text) => Ok(text),
        Err(TextFault::OutOfMemory) => Err(AllocError),
        Err(TextFault::NotUtf8 { .. } | TextFault::TooLong { .. }) => {
            unreachable!("a name of at most 64 bytes is a text")
        }
    }
}
