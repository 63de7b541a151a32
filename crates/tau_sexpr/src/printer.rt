//! Printing forms.
ghost use Rattle.std.specs.Prelude.{◌≡◌, ◌≤◌, ◌<◌, List, [], ◌∷◌, ◌++◌, IfOk, OnOk, OnErr, All, if◌then◌else◌, ◌==◌};
ghost use Rattle.std.specs.List.{flat_map};
ghost use Rattle.tau_sexpr.specs.Bytes.{IsTextByte};
ghost use Rattle.tau_sexpr.specs.Tree.{Tree, inside, depth_of, depths, HasWords};
ghost use Rattle.tau_sexpr.specs.Form.{tree_of};
ghost use Rattle.tau_sexpr.specs.Spelling.{IsSpelling};
ghost use Rattle.tau_sexpr.specs.Printing.{quoted_byte, print_of, print_items, printed, HasBytes, AllHaveBytes};
ghost use Rattle.tau_sexpr.specs.Inner.Begins.{Begins};

use crate::{Form, Forms, Text};
use std::alloc::{AllocError, Global};

/// Prints forms, one a line, with one space between the items of a list (docs/formats.md, "Texts and forms").
/// What is printed is read back as the same forms. The error is want of memory.
pub fn print_forms(alloc: Global, forms: &Forms) -> Result<Vec<u8>, AllocError>
    requires depth { depths forms.now ≤ 200 }
    requires words { All HasWords forms.now }

    ensures text { IfOk result (λ v. v.items ≡ printed forms.now) }
    ensures spells { IfOk result (λ v. IsSpelling v.items forms.now) }
    ensures read_back { IfOk result (λ v. (ts : List Tree) → IsSpelling v.items ts → ts ≡ forms.now) }
{
    let mut out = Vec::new(alloc);
    put_forms(&mut out, forms)?;
    Ok(out)
}

/// Prints forms behind a text, as `print_forms` prints them. What is added is read back as the same forms.
/// Without memory the text stays as it was.
fn put_forms(out: &mut Vec<u8>, forms: &Forms) -> Result<(), AllocError>
    requires depth { depths forms.now ≤ 200 }
    requires words { All HasWords forms.now }

    ensures text { OnOk result (out.new.items ≡ out.old.items ++ printed forms.now) }
    ensures spells { OnOk result (IsSpelling (printed forms.now) forms.now) }
    ensures read_back { OnOk result ((ts : List Tree) → IsSpelling (printed forms.now) ts → ts ≡ forms.now) }
    ensures err { OnErr result (out.new.items ≡ out.old.items) }
{
    let before = out.len();
    match put_lines(out, forms) {
        Ok(()) => Ok(()),
        Err(failed) => {
            out.truncate(before);
            Err(failed)
        }
    }
}

/// Prints a form behind a text, followed by a line feed. What is added is read back as this form alone.
/// Without memory the text stays as it was.
pub fn put_form_line(out: &mut Vec<u8>, form: &Form) -> Result<(), AllocError>
    requires depth { depth_of (tree_of form.now) ≤ 200 }
    requires words { HasWords (tree_of form.now) }

    ensures text { OnOk result (out.new.items ≡ out.old.items ++ printed (tree_of form.now ∷ [])) }
    ensures spells { OnOk result (IsSpelling (printed (tree_of form.now ∷ [])) (tree_of form.now ∷ [])) }
    ensures read_back { OnOk result ((ts : List Tree) → IsSpelling (printed (tree_of form.now ∷ [])) ts → ts ≡ tree_of form.now ∷ []) }
    ensures err { OnErr result (out.new.items ≡ out.old.items) }
{
    let before = out.len();
    match put_line(out, form) {
        Ok(()) => Ok(()),
        Err(failed) => {
            out.truncate(before);
            Err(failed)
        }
    }
}

#[tactic(auto, using(crate::proofs::PrintLemmas::begins_same))]
fn put_lines(out: &mut Vec<u8>, forms: &Forms) -> Result<(), AllocError>
    ensures text { OnOk result (out.new.items ≡ out.old.items ++ printed forms.now) }
    ensures bytes { OnOk result (All HasBytes forms.now) }
    ensures begins { OnErr result (Begins out.old.items out.new.items) }
{
    let items = forms.items();
    for form in items {
        put_line(out, form)?;
    }
    Ok(())
}

#[tactic(auto, using(crate::proofs::PrintLemmas::begins_same))]
fn put_line(out: &mut Vec<u8>, form: &Form) -> Result<(), AllocError>
    ensures text { OnOk result (out.new.items ≡ out.old.items ++ printed (tree_of form.now ∷ [])) }
    ensures bytes { OnOk result (HasBytes (tree_of form.now)) }
    ensures begins { OnErr result (Begins out.old.items out.new.items) }
{
    put_form(out, form)?;
    out.push(b'\n')?;
    Ok(())
}

#[cycle(put)]
#[tactic(auto, using(crate::proofs::PrintLemmas::begins_same))]
fn put_form(out: &mut Vec<u8>, form: &Form) -> Result<(), AllocError>
    ensures text { OnOk result (out.new.items ≡ out.old.items ++ print_of (tree_of form.now)) }
    ensures bytes { OnOk result (HasBytes (tree_of form.now)) }
    ensures begins { OnErr result (Begins out.old.items out.new.items) }
{
    match form {
        Form::Word(word) => out.extend_from_slice(word.bytes()),
        Form::Text(text) => put_text(out, text),
        Form::List(items) => {
            out.push(b'(')?;
            put_items(out, items)?;
            out.push(b')')?;
            Ok(())
        }
    }
}

#[cycle(put)]
#[tactic(auto, using(crate::proofs::PrintLemmas::begins_same))]
fn put_items(out: &mut Vec<u8>, forms: &Forms) -> Result<(), AllocError>
    ensures text { OnOk result (out.new.items ≡ out.old.items ++ print_items (inside forms.now)) }
    ensures bytes { OnOk result (AllHaveBytes (inside forms.now)) }
    ensures begins { OnErr result (Begins out.old.items out.new.items) }
{
    let items = forms.items();
    for (k, item) in items.iter().enumerate() {
        put_gap(out, k)?;
        put_form(out, item)?;
    }
    Ok(())
}

/// What stands before the item at `k`.
#[tactic(auto, using(crate::proofs::PrintLemmas::begins_same))]
fn put_gap(out: &mut Vec<u8>, k: usize) -> Result<(), AllocError>
    ensures text { OnOk result (out.new.items ≡ out.old.items ++ (if k == 0 then [] else 32 ∷ [])) }
    ensures begins { OnErr result (Begins out.old.items out.new.items) }
{
    if k > 0 {
        out.push(b' ')?;
    }
    Ok(())
}

#[tactic(auto, using(crate::proofs::PrintLemmas::begins_same))]
fn put_text(out: &mut Vec<u8>, text: &Text) -> Result<(), AllocError>
    ensures text { OnOk result (out.new.items ≡ out.old.items ++ 34 ∷ (flat_map quoted_byte text.now ++ 34 ∷ [])) }
    ensures bytes { OnOk result (All IsTextByte text.now) }
    ensures begins { OnErr result (Begins out.old.items out.new.items) }
{
    out.push(b'"')?;
    let bytes = text.bytes();
    for byte in bytes {
        put_byte(out, *byte)?;
    }
    out.push(b'"')?;
    Ok(())
}

#[tactic(auto, using(crate::proofs::PrintLemmas::begins_same), unfolding(crate::specs::Printing::quoted_byte))]
fn put_byte(out: &mut Vec<u8>, byte: u8) -> Result<(), AllocError>
    ensures text { OnOk result (out.new.items ≡ out.old.items ++ quoted_byte byte) }
    ensures begins { OnErr result (Begins out.old.items out.new.items) }
{
    match byte {
        b'"' => out.extend_from_slice(b"\\\""),
        b'\\' => out.extend_from_slice(b"\\\\"),
        b'\n' => out.extend_from_slice(b"\\n"),
        _ => {
            out.push(byte)?;
            Ok(())
        }
    }
}
