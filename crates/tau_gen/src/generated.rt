//! The generated program of a number (docs/formats.md, "Generated programs").
ghost use Rattle.std.specs.Prelude.{◌≡◌, ℕ, ◌+◌, ◌*◌, [], ◌∷◌, ◌++◌, IfOk, OnOk};
ghost use Rattle.rand_pcg.specs.Pcg.{pcg32};
ghost use Rattle.tau_tree.specs.Sound.{Sound};
ghost use Rattle.tau_gen.specs.Generated.{after, behaviours as all_behaviours, generated, post_at, posts_of, script_of, start_at, start_name as name_of, starts as all_starts};

use crate::hop::hop_body;
use rand_core::SeedableRng;
use rand_core::utils::NextWord;
use rand_pcg::Pcg32;
use std::alloc::{AllocError, Global};
use tau_sexpr::Word;
use tau_tree::{
    Behaviour, Behaviours, Entry, Failure, Post, Posts, Program, Script, Start, Starts,
};
use tau_value::{Value, word_of_count};

/// The generated program of a number, of version 1: 4 nodes, one behaviour that hops, 16 starts, 32 posts and three script
/// entries, in which the posts and the nodes that fail come from the words of the generator `Pcg32` that is seeded with the
/// number (docs/formats.md, "Generated programs"). It is sound. The error is want of memory.
pub fn generate(alloc: Global, number: u64) -> Result<Program, AllocError>
    ensures program { IfOk result (λ p. p ≡ generated number) }
    ensures sound { IfOk result (λ p. Sound p) }
{
    let mut words = Pcg32::seed_from_u64(number);
    let posts = posts(alloc, &mut words)?;
    let script = script(alloc, &mut words)?;
    Ok(Program {
        version: 1,
        nodes: 4,
        behaviours: behaviours(alloc)?,
        starts: starts(alloc)?,
        posts,
        script,
    })
}

/// The next word.
fn next_u32(words: &mut Pcg32) -> u32
    ensures { (result, words.new) ≡ pcg32 words.old }
{
    words.next_word()
}

#[tactic(auto, using(tau_sexpr::proofs::Literals::word_literal), unfolding(tau_sexpr::specs::Bytes::is_word_byte, tau_sexpr::specs::Bytes::is_letter_or_digit, tau_sexpr::specs::Bytes::is_word_sign))]
fn behaviours(alloc: Global) -> Result<Behaviours, AllocError>
    ensures { IfOk result (λ b. b ≡ all_behaviours) }
{
    let behaviour = Behaviour {
        name: Word::of(alloc, b"hop")?,
        body: hop_body(alloc)?,
    };
    let mut behaviours = Behaviours::new(alloc);
    behaviours.add(behaviour)?;
    Ok(behaviours)
}

fn starts(alloc: Global) -> Result<Starts, AllocError>
    ensures { IfOk result (λ s. s ≡ all_starts) }
{
    let mut starts = Starts::new(alloc);
    for number in 0..16 {
        let start = start(alloc, number)?;
        starts.add(start)?;
    }
    Ok(starts)
}

fn start(alloc: Global, number: u32) -> Result<Start, AllocError>
    ensures { IfOk result (λ s. s ≡ start_at number) }
{
    Ok(Start {
        name: start_name(alloc, number)?,
        behaviour: 0,
        node: number % 4,
        state: Value::Int(0),
    })
}

/// `t` and the digits of the number.
#[tactic(auto, using(tau_sexpr::proofs::Literals::word_literal), unfolding(tau_sexpr::specs::Bytes::is_word_byte, tau_sexpr::specs::Bytes::is_letter_or_digit, tau_sexpr::specs::Bytes::is_word_sign))]
fn start_name(alloc: Global, number: u32) -> Result<Word, AllocError>
    ensures { IfOk result (λ w. w ≡ name_of number) }
{
    let digits = word_of_count(alloc, u64::from(number))?;
    let mut name = Word::of(alloc, b"t")?;
    for byte in digits.bytes() {
        if let Err((_byte, failed)) = name.push(*byte) {
            return Err(failed);
        }
    }
    Ok(name)
}

/// The posts, from 64 words.
#[tactic(auto, unfolding(crate::specs::Generated::posts_of))]
fn posts(alloc: Global, words: &mut Pcg32) -> Result<Posts, AllocError>
    ensures posts { (number : ℕ) → words.old ≡ after number 0 → IfOk result (λ p. p ≡ posts_of number) }
    ensures words { (number : ℕ) → words.old ≡ after number 0 → OnOk result (words.new ≡ after number 64) }
{
    let mut posts = Posts::new(alloc);
    for _place in 0..32u32 {
        let post = next_post(words);
        posts.add(post)?;
    }
    Ok(posts)
}

/// The next post, from two words.
fn next_post(words: &mut Pcg32) -> Post
    ensures post { (number place : ℕ) → words.old ≡ after number (2 * place) → result ≡ post_at number place }
    ensures words { (number place : ℕ) → words.old ≡ after number (2 * place) → words.new ≡ after number (2 * (place + 1)) }
{
    let receiver = next_u32(words);
    let message = next_u32(words);
    Post {
        to: receiver % 16,
        value: Value::Int(i64::from(message % 48)),
    }
}

/// The script, from the two words after those of the posts.
fn script(alloc: Global, words: &mut Pcg32) -> Result<Script, AllocError>
    ensures { (number : ℕ) → words.old ≡ after number 64 → IfOk result (λ s. s ≡ script_of number) }
{
    let first = next_u32(words) % 4;
    let second = next_u32(words) % 4;
    let mut script = Script::new(alloc);
    add_entry(&mut script, 50, Failure::Lose { message: 32 })?;
    add_entry(&mut script, 200, Failure::Fail { node: first })?;
    add_entry(&mut script, 400, Failure::Fail { node: second })?;
    Ok(script)
}

fn add_entry(script: &mut Script, at: u32, failure: Failure) -> Result<(), AllocError>
    ensures { OnOk result (script.new ≡ script.old ++ record { at = at; failure = failure } ∷ []) }
{
    script.add(Entry { at, failure })
}
