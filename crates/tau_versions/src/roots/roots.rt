//! The points that a turn or a message takes along.
ghost use Rattle.std.specs.Prelude.{◌≡◌, ◌↔◌, [], ◌∷◌, ◌++◌, length, filter, slice_get, Contains, IsTrue, IfOk};
ghost use Rattle.std.specs.Option.{option_map_or};
ghost use Rattle.tau_versions.specs.Roots.Closing.{is_unclosed};
ghost use Rattle.tau_versions.specs.Roots.Listed.{shared};

use crate::logs::Log;
use crate::roots::closing::{count_unclosed, is_unclosed, unclosed};
use crate::search::HeardVersions;
use std::alloc::{AllocError, Global};
use std::marker::Model;
use std::sync::Arc;
use tau_points::Point;

/// Points that a turn or a message takes along. A list of many is shared by all that have it.
///
/// Contracts see the list.
#[derive(Drop)]
pub struct Roots {
    many: Option<Arc<Vec<Point>>>,
    one: Option<Point>,
}

impl Model for Roots {
    ghost use Rattle.std.specs.Prelude.{List};
    ghost use Rattle.tau_points.specs.declared.point.Point.{Point};

    ghost Value = { List Point };

    ghost use Rattle.tau_versions.specs.Roots.Listed.{listed};

    ghost view = { λ r. listed r.many r.one };
}

impl Roots {
    /// No point.
    pub fn none() -> Roots
        ensures { result ≡ [] }
    {
        Roots {
            many: None,
            one: None,
        }
    }

    /// One point.
    pub fn from_point(point: Point) -> Roots
        ensures { result ≡ point ∷ [] }
    {
        Roots {
            many: None,
            one: Some(point),
        }
    }

    /// The points of a list. The error is want of memory.
    pub fn from_list(alloc: Global, points: Vec<Point>) -> Result<Roots, AllocError>
        ensures { IfOk result (λ r. r ≡ points.items) }
    {
        if points.is_empty() {
            return Ok(Roots::none());
        }
        Ok(Roots {
            many: Some(Arc::new(alloc, points)?),
            one: None,
        })
    }

    /// The same points; a list of many is shared. The error is want of memory.
    pub fn share(&self) -> Result<Roots, AllocError>
        ensures { IfOk result (λ r. r ≡ self.now) }
    {
        let many = share_list(&self.many)?;
        Ok(Roots {
            many,
            one: self.one,
        })
    }

    /// These points and one more. A list is copied only where two points stand beside it. The error is want of memory.
    pub fn with(&self, alloc: Global, point: Point) -> Result<Roots, AllocError>
        ensures { IfOk result (λ r. r ≡ self.now ++ point ∷ []) }
    {
        let many = self.joined(alloc)?;
        Ok(Roots {
            many,
            one: Some(point),
        })
    }

    /// Those of the points that aren't closed by what was heard. A list of which none is closed is shared. The error is want of
    /// memory.
    pub fn unclosed<V: HeardVersions>(
        &self,
        alloc: Global,
        logs: &[Log],
        heard: &V,
    ) -> Result<Roots, AllocError>
        ensures { IfOk result (λ r. r ≡ filter (is_unclosed logs.now (V.numbers heard.now)) self.now) }
    {
        let many = list_unclosed(alloc, logs, heard, &self.many)?;
        let one = one_unclosed(logs, heard, self.one);
        Ok(Roots { many, one })
    }

    /// The points as one shared list. The error is want of memory.
    fn joined(&self, alloc: Global) -> Result<Option<Arc<Vec<Point>>>, AllocError>
        ensures { IfOk result (λ many. shared many ≡ self.now) }
    {
        if self.one.is_none() {
            return share_list(&self.many);
        }
        let points = self.to_vec(alloc)?;
        Ok(Some(Arc::new(alloc, points)?))
    }

    /// The points as a list of its own. The error is want of memory.
    pub fn to_vec(&self, alloc: Global) -> Result<Vec<Point>, AllocError>
        ensures { IfOk result (λ v. v.items ≡ self.now) }
    {
        let mut points = Vec::from_slice(alloc, points_of(&self.many))?;
        if let Some(one) = self.one {
            points.push(one)?;
        }
        Ok(points)
    }

    /// The points of the shared list, and the one beside it.
    pub fn parts(&self) -> (&[Point], Option<Point>)
        ensures { self.now ≡ result.0.now ++ option_map_or (λ p. p ∷ []) result.1 [] }
    {
        (points_of(&self.many), self.one)
    }

    /// How many points there are.
    pub fn len(&self) -> usize
        ensures { result ≡ length self.now }
    {
        match self.one {
            Some(_) => points_of(&self.many).len() + 1,
            None => points_of(&self.many).len(),
        }
    }

    /// Whether there is none.
    pub fn is_empty(&self) -> bool
        ensures { IsTrue result ↔ (self.now ≡ []) }
    {
        self.len() == 0
    }

    /// The point with this number.
    pub fn get(&self, number: usize) -> Option<Point>
        ensures { result ≡ slice_get self.now number }
    {
        let many = points_of(&self.many);
        if number == many.len() {
            return self.one;
        }
        many.get(number).copied()
    }

    /// Whether a point is among them.
    pub fn contains(&self, point: Point) -> bool
        ensures { IsTrue result ↔ Contains self.now point }
    {
        self.one == Some(point) || points_of(&self.many).contains(&point)
    }
}

/// The points of a list that may be missing.
fn points_of(many: &Option<Arc<Vec<Point>>>) -> &[Point]
    ensures { result.now ≡ shared many.now }
{
    match many {
        Some(many) => many,
        None => &[],
    }
}

/// Another owner of a list that may be missing. The error is want of memory.
fn share_list(many: &Option<Arc<Vec<Point>>>) -> Result<Option<Arc<Vec<Point>>>, AllocError>
    ensures { IfOk result (λ list. shared list ≡ shared many.now) }
{
    match many {
        Some(many) => Ok(Some(Arc::try_clone(many)?)),
        None => Ok(None),
    }
}

/// Those of the points of a list that may be missing which aren't closed. The error is want of memory.
fn list_unclosed<V: HeardVersions>(
    alloc: Global,
    logs: &[Log],
    heard: &V,
    many: &Option<Arc<Vec<Point>>>,
) -> Result<Option<Arc<Vec<Point>>>, AllocError>
    ensures { IfOk result (λ list. shared list ≡ filter (is_unclosed logs.now (V.numbers heard.now)) (shared many.now)) }
{
    let points = points_of(many);
    let count = count_unclosed(logs, heard, points);
    if count == points.len() {
        return share_list(many);
    }
    if count == 0 {
        return Ok(None);
    }
    let left = unclosed(alloc, logs, heard, points)?;
    Ok(Some(Arc::new(alloc, left)?))
}

/// A point that may be missing, unless it is closed.
fn one_unclosed<V: HeardVersions>(logs: &[Log], heard: &V, one: Option<Point>) -> Option<Point>
    ensures { option_map_or (λ p. p ∷ []) result [] ≡ filter (is_unclosed logs.now (V.numbers heard.now)) (option_map_or (λ p. p ∷ []) one []) }
{
    match one {
        Some(point) if is_unclosed(logs, heard, &point) => Some(point),
        _ => None,
    }
}
