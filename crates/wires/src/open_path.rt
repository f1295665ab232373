ghost use Rattle.std.specs.Prelude.{◌≡◌, Some, IfOk};
ghost use Rattle.wires.specs.Paths.{IsShort};
ghost use Rattle.wires.specs.PathWords.{orient_from};
ghost use Rattle.wires.specs.PathReading.{Takes, begun, between_step, element_step, ended, head_step, path_step, point_step, rect_step, rule_step, shape_step, via_step, width_step, with_point, with_rect, with_taper};

use crate::path::{Element, Path, Taper};
use crate::path_word::{PathWord, orient_of_word};
use crate::place_words::{text_of_name, via_of};
use crate::spot::{HeadSpot, PointSpot, RectSpot, Spot};
use odb_base::{List, Name, Point, Text};
use std::alloc::{AllocError, Global};
use std::mem;

/// A path of which words may still come.
#[derive(Debug, Drop)]
pub struct OpenPath {
    /// What it is so far.
    pub path: Path<Name, Name>,
    /// The point that stands last.
    pub former: Option<Point>,
    /// The via that stands last and has no orientation yet.
    pub via: Option<Name>,
    /// Which word is due.
    pub spot: Spot,
}

impl OpenPath {
    /// A path behind its layer.
    pub fn begun(alloc: Global, special: bool, layer: Name) -> OpenPath
        ensures value { result ≡ begun special layer }
        ensures short { IsShort result.path }
    {
        let spot = if special {
            HeadSpot::Width
        } else {
            HeadSpot::AfterLayer
        };
        OpenPath {
            path: Path {
                layer,
                width: 0,
                shape: Text::from_vec(Vec::new(alloc)),
                taper: Taper::None,
                elements: List::new(alloc),
            },
            former: None,
            via: None,
            spot: Spot::Head(spot),
        }
    }

    /// Takes a word, which stands for this number where it stands for one, if it may stand here.
    #[tactic(auto, unfolding(crate::specs::PathReading::path_step))]
    pub fn step(
        &mut self,
        alloc: Global,
        number: Option<i32>,
        word: &[u8],
    ) -> Result<bool, AllocError>
        ensures value { IfOk result (Takes (path_step number self.old word.now) self.new) }
        ensures short { IsShort self.old.path → IsShort self.new.path }
    {
        match self.spot {
            Spot::Head(spot) => self.take_head_word(alloc, spot, number, word),
            Spot::Point(spot) => self.take_point_word(spot, number, word),
            Spot::Rect(spot) => self.take_rect_word(spot, number, word),
            Spot::Element => self.take_between(alloc, word),
        }
    }

    /// The path, where it may end.
    pub fn ended(self) -> Result<Path<Name, Name>, AllocError>
        ensures value { IfOk result (λ path. path ≡ ended self) }
        ensures short { IsShort self.path → IfOk result IsShort }
    {
        let OpenPath {
            mut path,
            former: _,
            via,
            spot: _,
        } = self;
        match via {
            None => {
                path.elements.shrink();
                Ok(path)
            }
            Some(via) => match path.elements.push(Element::Via { via, orient: None }) {
                Ok(()) => {
                    path.elements.shrink();
                    Ok(path)
                }
                Err(AllocError) => {
                    drop(path);
                    Err(AllocError)
                }
            },
        }
    }

    #[tactic(auto, unfolding(crate::specs::PathReading::head_step))]
    fn take_head_word(
        &mut self,
        alloc: Global,
        spot: HeadSpot,
        number: Option<i32>,
        word: &[u8],
    ) -> Result<bool, AllocError>
        ensures value { IfOk result (Takes (head_step spot number self.old word.now) self.new) }
        ensures short { IsShort self.old.path → IsShort self.new.path }
    {
        let next = match spot {
            HeadSpot::Width => return Ok(self.take_width(number)),
            HeadSpot::ShapeName => return self.take_shape(alloc, word),
            HeadSpot::RuleName => return self.take_rule(alloc, word),
            HeadSpot::AfterWidth if PathWord::Plus.is(word) => Spot::Head(HeadSpot::Shape),
            HeadSpot::Shape if PathWord::Shape.is(word) => Spot::Head(HeadSpot::ShapeName),
            HeadSpot::AfterLayer if PathWord::Taper.is(word) => {
                self.set_taper(Taper::Layer);
                return Ok(true);
            }
            HeadSpot::AfterLayer if PathWord::TaperRule.is(word) => Spot::Head(HeadSpot::RuleName),
            HeadSpot::AfterWidth | HeadSpot::AfterLayer | HeadSpot::Last
                if PathWord::Open.is(word) => { Spot::Point(PointSpot::X) }
            HeadSpot::AfterWidth | HeadSpot::AfterLayer | HeadSpot::Last | HeadSpot::Shape => {
                return Ok(false);
            }
        };
        self.spot = next;
        Ok(true)
    }

    fn take_width(&mut self, width: Option<i32>) -> bool
        ensures value { Takes (width_step width self.old) self.new result }
        ensures short { IsShort self.old.path → IsShort self.new.path }
    {
        match width {
            Some(width) => {
                self.path.width = width;
                self.spot = Spot::Head(HeadSpot::AfterWidth);
                true
            }
            None => false,
        }
    }

    #[tactic(auto, unfolding(crate::specs::PathReading::shape_step))]
    fn take_shape(&mut self, alloc: Global, word: &[u8]) -> Result<bool, AllocError>
        ensures value { IfOk result (Takes (shape_step word.now self.old) self.new) }
        ensures short { IsShort self.old.path → IsShort self.new.path }
    {
        match text_of_name(alloc, word)? {
            Some(shape) => {
                drop(mem::replace(&mut self.path.shape, shape));
                self.spot = Spot::Head(HeadSpot::Last);
                Ok(true)
            }
            None => Ok(false),
        }
    }

    #[tactic(auto, unfolding(crate::specs::PathReading::rule_step))]
    fn take_rule(&mut self, alloc: Global, word: &[u8]) -> Result<bool, AllocError>
        ensures value { IfOk result (Takes (rule_step word.now self.old) self.new) }
        ensures short { IsShort self.old.path → IsShort self.new.path }
    {
        match text_of_name(alloc, word)? {
            Some(rule) => {
                self.set_taper(Taper::Rule(rule));
                Ok(true)
            }
            None => Ok(false),
        }
    }

    fn set_taper(&mut self, taper: Taper)
        ensures { self.new ≡ with_taper taper self.old }
    {
        drop(mem::replace(&mut self.path.taper, taper));
        self.spot = Spot::Head(HeadSpot::Last);
    }

    #[tactic(auto, unfolding(crate::specs::PathReading::point_step))]
    fn take_point_word(
        &mut self,
        spot: PointSpot,
        number: Option<i32>,
        word: &[u8],
    ) -> Result<bool, AllocError>
        ensures value { IfOk result (Takes (point_step spot number self.old word.now) self.new) }
        ensures short { IsShort self.old.path → IsShort self.new.path }
    {
        let next = match (spot, number) {
            (PointSpot::X, Some(x)) => PointSpot::Y { x },
            (PointSpot::Y { x }, Some(y)) => PointSpot::AfterY {
                point: Point { x, y },
            },
            (PointSpot::AfterY { point }, Some(ext)) => PointSpot::Close { point, ext },
            (PointSpot::AfterY { point }, None) if PathWord::Close.is(word) => {
                return self.put_point(point, None);
            }
            (PointSpot::Close { point, ext }, _) if PathWord::Close.is(word) => {
                return self.put_point(point, Some(ext));
            }
            _ => return Ok(false),
        };
        self.spot = Spot::Point(next);
        Ok(true)
    }

    fn put_point(&mut self, point: Point, ext: Option<i32>) -> Result<bool, AllocError>
        ensures value { IfOk result (Takes (Some (with_point point ext self.old)) self.new) }
        ensures short { IsShort self.old.path → IsShort self.new.path }
    {
        self.path.elements.push(Element::Point {
            x: point.x,
            y: point.y,
            ext,
        })?;
        self.former = Some(point);
        self.spot = Spot::Element;
        Ok(true)
    }

    #[tactic(auto, unfolding(crate::specs::PathReading::rect_step))]
    fn take_rect_word(
        &mut self,
        spot: RectSpot,
        number: Option<i32>,
        word: &[u8],
    ) -> Result<bool, AllocError>
        ensures value { IfOk result (Takes (rect_step spot number self.old word.now) self.new) }
        ensures short { IsShort self.old.path → IsShort self.new.path }
    {
        let next = match (spot, number) {
            (RectSpot::Open, _) if PathWord::Open.is(word) => RectSpot::X1,
            (RectSpot::X1, Some(dx1)) => RectSpot::Y1 { dx1 },
            (RectSpot::Y1 { dx1 }, Some(dy1)) => RectSpot::X2 {
                first: Point { x: dx1, y: dy1 },
            },
            (RectSpot::X2 { first }, Some(dx2)) => RectSpot::Y2 { first, dx2 },
            (RectSpot::Y2 { first, dx2 }, Some(dy2)) => RectSpot::Close {
                first,
                second: Point { x: dx2, y: dy2 },
            },
            (RectSpot::Close { first, second }, _) if PathWord::Close.is(word) => {
                return self.put_rect(first, second);
            }
            _ => return Ok(false),
        };
        self.spot = Spot::Rect(next);
        Ok(true)
    }

    fn put_rect(&mut self, first: Point, second: Point) -> Result<bool, AllocError>
        ensures value { IfOk result (Takes (Some (with_rect first second self.old)) self.new) }
        ensures short { IsShort self.old.path → IsShort self.new.path }
    {
        self.path.elements.push(Element::Rect {
            dx1: first.x,
            dy1: first.y,
            dx2: second.x,
            dy2: second.y,
        })?;
        self.spot = Spot::Element;
        Ok(true)
    }

    // Takes the orientation of the via that stands last, or the first word of an element.
    fn take_between(&mut self, alloc: Global, word: &[u8]) -> Result<bool, AllocError>
        ensures value { IfOk result (Takes (between_step self.old.via self.old word.now) self.new) }
        ensures short { IsShort self.old.path → IsShort self.new.path }
    {
        match self.via.take() {
            None => self.take_element(alloc, word),
            Some(via) => self.take_after_via(alloc, via, word),
        }
    }

    // Takes the orientation of a via, or the first word of what stands behind it.
    fn take_after_via(&mut self, alloc: Global, via: Name, word: &[u8]) -> Result<bool, AllocError>
        ensures value { IfOk result (Takes (via_step via (orient_from word.now) self.old word.now) self.new) }
        ensures short { IsShort self.old.path → IsShort self.new.path }
    {
        let orient = orient_of_word(word);
        self.path.elements.push(Element::Via { via, orient })?;
        match orient {
            Some(_) => Ok(true),
            None => self.take_element(alloc, word),
        }
    }

    // Takes the first word of an element.
    #[tactic(auto, unfolding(crate::specs::PathReading::element_step))]
    fn take_element(&mut self, alloc: Global, word: &[u8]) -> Result<bool, AllocError>
        ensures value { IfOk result (Takes (element_step self.old word.now) self.new) }
        ensures short { IsShort self.old.path → IsShort self.new.path }
    {
        if PathWord::Open.is(word) {
            self.spot = Spot::Point(PointSpot::X);
            return Ok(true);
        }
        if PathWord::Rect.is(word) {
            self.spot = Spot::Rect(RectSpot::Open);
            return Ok(true);
        }
        match via_of(alloc, word)? {
            Some(via) => {
                drop(mem::replace(&mut self.via, Some(via)));
                Ok(true)
            }
            None => Ok(false),
        }
    }
}
