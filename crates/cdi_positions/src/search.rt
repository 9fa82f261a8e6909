//! The search for a value in a JSON text, byte by byte.

/// What the next byte belongs to.
#[derive(Clone, Copy)]
enum Mode {
    Structure,
    Text,
    /// It stands behind a backslash in a text.
    Escape,
}

/// How far a search has come.
#[derive(Drop)]
struct Search<'a> {
    text: &'a [u8],
    path: &'a str,
    mode: Mode,
    /// How many arrays and objects are open.
    depth: usize,
    /// How many of them, from the root on, are on the path.
    on_path: usize,
    /// Whether the innermost of these is an array, and the index of the item in it.
    is_array: bool,
    index: usize,
    /// Whether the value that comes next is on the path.
    is_next: bool,
    /// Where the last text began and ended.
    text_start: usize,
    text_end: usize,
    /// Where the value at the path begins.
    found: Option<usize>,
}

impl<'a> Search<'a> {
    fn new(text: &'a [u8], path: &'a str) -> Search<'a> {
        Search {
            text,
            path,
            mode: Mode::Structure,
            depth: 0,
            on_path: 0,
            is_array: false,
            index: 0,
            is_next: true,
            text_start: 0,
            text_end: 0,
            found: None,
        }
    }

    /// The step of the path to an item of the innermost array or object that is on it.
    fn step(&self) -> Option<&'a str> {
        self.path.split('/').nth(self.on_path)
    }

    fn step_index(&self) -> Option<usize> {
        self.step()?.parse::<usize>().ok()
    }

    /// Whether the innermost array or object is on the path.
    fn is_on_path(&self) -> bool {
        self.depth == self.on_path
    }

    /// Looks at the next byte.
    fn pass(&mut self, offset: usize, byte: u8) {
        match self.mode {
            Mode::Structure => self.pass_structure(offset, byte),
            Mode::Text => match byte {
                b'\\' => self.mode = Mode::Escape,
                b'"' => {
                    self.text_end = offset;
                    self.mode = Mode::Structure;
                }
                _ => {}
            },
            Mode::Escape => self.mode = Mode::Text,
        }
    }

    fn pass_structure(&mut self, offset: usize, byte: u8) {
        match byte {
            b' ' | b'\t' | b'\n' | b'\r' => {}
            b']' | b'}' => self.close(),
            b',' => self.pass_comma(),
            b':' => self.pass_colon(),
            _ => self.start_value(offset, byte),
        }
    }

    /// A value begins, a key, or the next byte of a number or a word.
    fn start_value(&mut self, offset: usize, byte: u8) {
        let is_on_path = self.is_next;
        self.is_next = false;
        if is_on_path {
            let is_whole = self
                .path
                .split('/')
                .nth(self.on_path.saturating_add(1))
                .is_none();
            self.found = if is_whole { Some(offset) } else { None };
        }
        match byte {
            b'"' => {
                self.mode = Mode::Text;
                self.text_start = offset.saturating_add(1);
            }
            b'[' | b'{' => {
                self.depth = self.depth.saturating_add(1);
                if is_on_path {
                    self.open_on_path(byte == b'[');
                }
            }
            _ => {}
        }
    }

    fn open_on_path(&mut self, is_array: bool) {
        self.on_path = self.depth;
        self.is_array = is_array;
        self.index = 0;
        self.is_next = is_array && self.step_index() == Some(0);
    }

    /// Leaves an array or object. Where it was on the path, its parent goes on behind the step to it.
    fn close(&mut self) {
        if self.is_on_path() {
            self.on_path = self.on_path.saturating_sub(1);
            let index = self.step_index();
            self.is_array = index.is_some();
            self.index = index.unwrap_or(0);
        }
        self.depth = self.depth.saturating_sub(1);
        self.is_next = false;
    }

    fn pass_comma(&mut self) {
        if self.is_array && self.is_on_path() {
            self.index = self.index.saturating_add(1);
            self.is_next = self.step_index() == Some(self.index);
        }
    }

    fn pass_colon(&mut self) {
        if !self.is_array && self.is_on_path() {
            let key = self.text.get(self.text_start..self.text_end);
            self.is_next = match self.step() {
                Some(step) => key == Some(step.as_bytes()),
                None => false,
            };
        }
    }
}

/// The offset of the value at a path in a JSON text, if it is found.
pub(crate) fn offset_of(text: &[u8], path: &str) -> Option<usize> {
    let mut search = Search::new(text, path);
    for (offset, byte) in text.iter().enumerate() {
        search.pass(offset, *byte);
    }
    search.found
}
