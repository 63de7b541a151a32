//! The texts of programs, put straight behind a text: no form of a program is made.
ghost use Rattle.std.specs.Prelude.{◌≡◌, ◌≤◌, ◌∷◌, ◌++◌, [], map, codes, All, IfOk, OnOk};
ghost use Rattle.tau_sexpr.specs.Bytes.{IsWordByte};
ghost use Rattle.tau_sexpr.specs.Printing as print;
ghost use Rattle.tau_sexpr.specs.Printing.{print_of, HasBytes};
ghost use Rattle.tau_sexpr.specs.Spelling.{IsSpelling};
ghost use Rattle.tau_sexpr.specs.Tree.{depths, HasWords, headed};
ghost use Rattle.tau_value.specs.Names.{AreNames};
ghost use Rattle.tau_value.specs.Value.{val_of};
ghost use Rattle.tau_value.specs.Written.{count_form, NumbersFit};
ghost use Rattle.tau_tree.specs.Parts.{Throughout};
ghost use Rattle.tau_tree.specs.Sound.{Sound, behaviour_names as names_of_behaviours, start_names as names_of_starts};
ghost use Rattle.tau_forms.specs.Inner.Fitting.{HasFittingInteger, HasFittingNumbers, IsFitting};
ghost use Rattle.tau_forms.specs.Meaning.{Means};
ghost use Rattle.tau_forms.specs.Printed.{printed, version_forms, behaviour_form, start_form, post_form, failure_form, entry_form};

use crate::tables::Tables;
use crate::values::{add_count, add_value};
use crate::writing::{add_defined, add_expression, add_word, begin, end};
use std::alloc::{AllocError, Global};
use tau_sexpr::{Forms, read_forms};
use tau_tree::{Behaviour, Entry, Failure, Post, Program, Start};
use tau_value::Names;

/// Adds the text of a program to the end of `out`: its version where it is 2, its nodes, then the behaviours, the starts, the
/// posts and the script entries, each form in a line of its own (docs/formats.md, "Programs"). No form of it is made, so that
/// beside the text only the names that it defines take memory. `program_of` reads the forms that are spelled back as the same
/// program. The error is want of memory, and a part of the text may then be added.
pub fn put_program(alloc: Global, out: &mut Vec<u8>, program: &Program) -> Result<(), AllocError>
    requires { Sound program.now }
    ensures text { OnOk result (out.new.items ≡ out.old.items ++ print.printed (printed program.now)) }
    ensures spells { OnOk result (IsSpelling (print.printed (printed program.now)) (printed program.now)) }
    ensures read_back { OnOk result (Means (printed program.now) program.now) }
{
    let tables = names_of(alloc, program)?;
    put_lines(out, program, &tables)
}

/// The forms of a program, for callers who want these: what `put_program` prints, read. `program_of` reads them back as the
/// same program. The error is want of memory.
pub fn forms_of(alloc: Global, program: &Program) -> Result<Forms, AllocError>
    requires { Sound program.now }
    ensures forms { IfOk result (λ f. f ≡ printed program.now) }
    ensures read_back { IfOk result (λ f. Means f program.now) }
    ensures depth { IfOk result (λ f. depths f ≤ 200) }
    ensures words { IfOk result (λ f. All HasWords f) }
{
    let mut text = Vec::new(alloc);
    put_program(alloc, &mut text, program)?;
    match read_forms(alloc, &text) {
        Ok(forms) => Ok(forms),
        // The text spells forms, so no other error can come.
        Err(_) => Err(AllocError),
    }
}

/// What a program defines.
fn names_of(alloc: Global, program: &Program) -> Result<Tables, AllocError>
    ensures behaviours { IfOk result (λ t. t.behaviours ≡ names_of_behaviours program.now) }
    ensures starts { IfOk result (λ t. t.starts ≡ names_of_starts program.now) }
{
    Ok(Tables {
        behaviours: behaviour_names(alloc, program.behaviours.items())?,
        starts: start_names(alloc, program.starts.items())?,
        nodes: u64::from(program.nodes),
        version: program.version,
    })
}

fn behaviour_names(alloc: Global, behaviours: &[Behaviour]) -> Result<Names, AllocError>
    ensures { IfOk result (λ n. n ≡ map (λ b. b.name) behaviours.now) }
{
    let mut names = Names::new(alloc);
    for behaviour in behaviours {
        names.add(behaviour.name.copy()?)?;
    }
    Ok(names)
}

fn start_names(alloc: Global, starts: &[Start]) -> Result<Names, AllocError>
    ensures { IfOk result (λ n. n ≡ map (λ s. s.name) starts.now) }
{
    let mut names = Names::new(alloc);
    for start in starts {
        names.add(start.name.copy()?)?;
    }
    Ok(names)
}

fn put_lines(out: &mut Vec<u8>, program: &Program, tables: &Tables) -> Result<(), AllocError>
    requires behaviours { tables.now.behaviours ≡ names_of_behaviours program.now }
    requires starts { tables.now.starts ≡ names_of_starts program.now }
    requires names { AreNames tables.now.starts }
    ensures text { OnOk result (out.new.items ≡ out.old.items ++ print.printed (printed program.now)) }
    ensures bytes { OnOk result (All HasBytes (printed program.now)) }
    ensures fitting { OnOk result (IsFitting program.now) }
{
    put_version(out, program.version)?;
    put_nodes(out, program.nodes)?;
    put_behaviours(out, program.behaviours.items(), tables)?;
    put_starts(out, program.starts.items(), tables)?;
    put_posts(out, program.posts.items(), &tables.starts)?;
    put_entries(out, program.script.items())
}

/// Adds the line of version 2; of version 1 there is none.
#[tactic(auto, using(tau_sexpr::proofs::Literals::word_literal), unfolding(tau_sexpr::specs::Bytes::is_word_byte, tau_sexpr::specs::Bytes::is_letter_or_digit, tau_sexpr::specs::Bytes::is_word_sign))]
fn put_version(out: &mut Vec<u8>, version: u32) -> Result<(), AllocError>
    ensures text { OnOk result (out.new.items ≡ out.old.items ++ print.printed (version_forms version)) }
    ensures bytes { OnOk result (All HasBytes (version_forms version)) }
{
    if version != 2 {
        return Ok(());
    }
    put_number(out, b"version", version)?;
    end_line(out)
}

#[tactic(auto, using(tau_sexpr::proofs::Literals::word_literal), unfolding(tau_sexpr::specs::Bytes::is_word_byte, tau_sexpr::specs::Bytes::is_letter_or_digit, tau_sexpr::specs::Bytes::is_word_sign))]
fn put_nodes(out: &mut Vec<u8>, nodes: u32) -> Result<(), AllocError>
    ensures text { OnOk result (out.new.items ≡ out.old.items ++ print.printed (headed (codes "nodes") (count_form nodes ∷ []) ∷ [])) }
    ensures bytes { OnOk result (HasBytes (headed (codes "nodes") (count_form nodes ∷ []))) }
{
    put_number(out, b"nodes", nodes)?;
    end_line(out)
}

fn put_behaviours(
    out: &mut Vec<u8>,
    behaviours: &[Behaviour],
    tables: &Tables,
) -> Result<(), AllocError>
    ensures text { OnOk result (out.new.items ≡ out.old.items ++ print.printed (map (behaviour_form tables.now.behaviours tables.now.starts) behaviours.now)) }
    ensures bytes { OnOk result (All (λ b. HasBytes (behaviour_form tables.now.behaviours tables.now.starts b)) behaviours.now) }
    ensures integers { OnOk result (All (λ b. Throughout HasFittingInteger b.body) behaviours.now) }
{
    for behaviour in behaviours {
        put_behaviour(out, behaviour, tables)?;
    }
    Ok(())
}

/// Adds `(behaviour NAME e)` and a line feed.
#[tactic(auto, using(tau_sexpr::proofs::Literals::word_literal), unfolding(tau_sexpr::specs::Bytes::is_word_byte, tau_sexpr::specs::Bytes::is_letter_or_digit, tau_sexpr::specs::Bytes::is_word_sign))]
fn put_behaviour(
    out: &mut Vec<u8>,
    behaviour: &Behaviour,
    tables: &Tables,
) -> Result<(), AllocError>
    ensures text { OnOk result (out.new.items ≡ out.old.items ++ print.printed (behaviour_form tables.now.behaviours tables.now.starts behaviour.now ∷ [])) }
    ensures bytes { OnOk result (HasBytes (behaviour_form tables.now.behaviours tables.now.starts behaviour.now)) }
    ensures integers { OnOk result (Throughout HasFittingInteger behaviour.now.body) }
{
    begin(out, b"behaviour")?;
    add_word(out, &behaviour.name)?;
    add_expression(out, &behaviour.body, tables)?;
    end(out)?;
    end_line(out)
}

fn put_starts(out: &mut Vec<u8>, starts: &[Start], tables: &Tables) -> Result<(), AllocError>
    ensures text { OnOk result (out.new.items ≡ out.old.items ++ print.printed (map (start_form tables.now.behaviours tables.now.starts) starts.now)) }
    ensures bytes { OnOk result (All (λ s. HasBytes (start_form tables.now.behaviours tables.now.starts s)) starts.now) }
    ensures states { OnOk result (All (λ s. NumbersFit (val_of s.state)) starts.now) }
{
    for start in starts {
        put_start(out, start, tables)?;
    }
    Ok(())
}

/// Adds `(start NAME BEHAVIOUR NODE VALUE)` and a line feed.
#[tactic(auto, using(tau_sexpr::proofs::Literals::word_literal), unfolding(tau_sexpr::specs::Bytes::is_word_byte, tau_sexpr::specs::Bytes::is_letter_or_digit, tau_sexpr::specs::Bytes::is_word_sign))]
fn put_start(out: &mut Vec<u8>, start: &Start, tables: &Tables) -> Result<(), AllocError>
    ensures text { OnOk result (out.new.items ≡ out.old.items ++ print.printed (start_form tables.now.behaviours tables.now.starts start.now ∷ [])) }
    ensures bytes { OnOk result (HasBytes (start_form tables.now.behaviours tables.now.starts start.now)) }
    ensures state { OnOk result (NumbersFit (val_of start.now.state)) }
{
    begin(out, b"start")?;
    add_word(out, &start.name)?;
    add_defined(out, &tables.behaviours, start.behaviour)?;
    add_count(out, start.node)?;
    add_value(out, &start.state, &tables.starts)?;
    end(out)?;
    end_line(out)
}

fn put_posts(out: &mut Vec<u8>, posts: &[Post], starts: &Names) -> Result<(), AllocError>
    ensures text { OnOk result (out.new.items ≡ out.old.items ++ print.printed (map (post_form starts.now) posts.now)) }
    ensures bytes { OnOk result (All (λ q. HasBytes (post_form starts.now q)) posts.now) }
    ensures values { OnOk result (All (λ q. NumbersFit (val_of q.value)) posts.now) }
{
    for post in posts {
        put_post(out, post, starts)?;
    }
    Ok(())
}

/// Adds `(post START VALUE)` and a line feed.
#[tactic(auto, using(tau_sexpr::proofs::Literals::word_literal), unfolding(tau_sexpr::specs::Bytes::is_word_byte, tau_sexpr::specs::Bytes::is_letter_or_digit, tau_sexpr::specs::Bytes::is_word_sign))]
fn put_post(out: &mut Vec<u8>, post: &Post, starts: &Names) -> Result<(), AllocError>
    ensures text { OnOk result (out.new.items ≡ out.old.items ++ print.printed (post_form starts.now post.now ∷ [])) }
    ensures bytes { OnOk result (HasBytes (post_form starts.now post.now)) }
    ensures value { OnOk result (NumbersFit (val_of post.now.value)) }
{
    begin(out, b"post")?;
    add_defined(out, starts, post.to)?;
    add_value(out, &post.value, starts)?;
    end(out)?;
    end_line(out)
}

fn put_entries(out: &mut Vec<u8>, entries: &[Entry]) -> Result<(), AllocError>
    ensures text { OnOk result (out.new.items ≡ out.old.items ++ print.printed (map entry_form entries.now)) }
    ensures bytes { OnOk result (All (λ e. HasBytes (entry_form e)) entries.now) }
    ensures numbers { OnOk result (All HasFittingNumbers entries.now) }
{
    for entry in entries {
        put_entry(out, *entry)?;
    }
    Ok(())
}

/// Adds `(at N FAILURE)` and a line feed.
#[tactic(auto, using(tau_sexpr::proofs::Literals::word_literal), unfolding(tau_sexpr::specs::Bytes::is_word_byte, tau_sexpr::specs::Bytes::is_letter_or_digit, tau_sexpr::specs::Bytes::is_word_sign))]
fn put_entry(out: &mut Vec<u8>, entry: Entry) -> Result<(), AllocError>
    ensures text { OnOk result (out.new.items ≡ out.old.items ++ print.printed (entry_form entry ∷ [])) }
    ensures bytes { OnOk result (HasBytes (entry_form entry)) }
    ensures numbers { HasFittingNumbers entry }
{
    begin(out, b"at")?;
    add_count(out, entry.at)?;
    out.push(b' ')?;
    put_failure(out, entry.failure)?;
    end(out)?;
    end_line(out)
}

#[tactic(auto, using(tau_sexpr::proofs::Literals::word_literal), unfolding(tau_sexpr::specs::Bytes::is_word_byte, tau_sexpr::specs::Bytes::is_letter_or_digit, tau_sexpr::specs::Bytes::is_word_sign))]
fn put_failure(out: &mut Vec<u8>, failure: Failure) -> Result<(), AllocError>
    ensures text { OnOk result (out.new.items ≡ out.old.items ++ print_of (failure_form failure)) }
    ensures bytes { OnOk result (HasBytes (failure_form failure)) }
{
    match failure {
        Failure::Fail { node } => put_number(out, b"fail", node),
        Failure::Lose { message } => put_number(out, b"lose", message),
        Failure::Repeat { message } => put_number(out, b"repeat", message),
    }
}

/// Adds a list of a word and a number.
fn put_number(out: &mut Vec<u8>, head: &[u8], number: u32) -> Result<(), AllocError>
    requires { All IsWordByte head.now }
    ensures text { OnOk result (out.new.items ≡ out.old.items ++ print_of (headed head.now (count_form number ∷ []))) }
    ensures bytes { OnOk result (HasBytes (headed head.now (count_form number ∷ []))) }
{
    begin(out, head)?;
    add_count(out, number)?;
    end(out)
}

/// Adds a line feed.
fn end_line(out: &mut Vec<u8>) -> Result<(), AllocError>
    ensures { OnOk result (out.new.items ≡ out.old.items ++ 10 ∷ []) }
{
    out.push(b'\n')?;
    Ok(())
}
