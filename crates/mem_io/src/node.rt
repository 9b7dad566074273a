//! A node of a disk in memory.

ghost use Rattle.std.specs.Prelude.{◌≡◌, Option, Some, None, option_map, is_some, IfOk, IfSome, IfNone, IsTrue};
ghost use Rattle.sd_io.specs.Tree.{directory, is_directory_content, file_content};
ghost use Rattle.sd_io.specs.Files.{kind_of, len_of};
ghost use Rattle.mem_io.specs.MemNode.{content_of, with_bytes, now_of, link_target};

use sd_io::{Ident, Kind, Meta, NoMemory, Text};
use std::alloc::Global;
use std::marker::Model;

/// What a node is.
#[derive(Drop)]
pub enum MemContent {
    Directory,
    /// A symbolic link with its target.
    Link(Text),
    /// A regular file with its bytes and its mode.
    File(Vec<u8>, u32),
    Other,
}

impl MemContent {
    pub fn try_clone(&self, alloc: Global) -> Result<MemContent, NoMemory>
        ensures { IfOk result (λ copy. content_of copy ≡ content_of self.now) }
    {
        match self {
            MemContent::Directory => Ok(MemContent::Directory),
            MemContent::Link(target) => Ok(MemContent::Link(Text::new(alloc, target.as_str())?)),
            MemContent::File(bytes, mode) => Ok(MemContent::File(bytes.to_vec(alloc)?, *mode)),
            MemContent::Other => Ok(MemContent::Other),
        }
    }
}

/// A node with the numbers of its device and its inode.
#[derive(Drop)]
pub struct MemNode {
    content: MemContent,
    dev: u64,
    ino: u64,
}

impl Model for MemNode {
    ghost use Rattle.sd_io.specs.Tree.{Node};

    ghost Value = { Node };

    ghost use Rattle.mem_io.specs.MemNodeView.{node_of};

    ghost view = { node_of };
}

impl MemNode {
    pub fn new(content: MemContent, dev: u64, ino: u64) -> MemNode
        ensures { result ≡ record { content = content_of content; dev = dev; ino = ino } }
    {
        MemNode { content, dev, ino }
    }

    pub fn try_clone(&self, alloc: Global) -> Result<MemNode, NoMemory>
        ensures { IfOk result (λ copy. copy ≡ self.now) }
    {
        Ok(MemNode {
            content: self.content.try_clone(alloc)?,
            dev: self.dev,
            ino: self.ino,
        })
    }

    /// A copy of what the node is.
    pub fn content(&self, alloc: Global) -> Result<MemContent, NoMemory>
        ensures { IfOk result (λ copy. content_of copy ≡ self.now.content) }
    {
        self.content.try_clone(alloc)
    }

    pub fn kind(&self) -> Kind
        ensures { result ≡ kind_of self.now.content }
    {
        match &self.content {
            MemContent::Directory => Kind::Directory,
            MemContent::Link(_) => Kind::Link,
            MemContent::File(_, _) => Kind::File,
            MemContent::Other => Kind::Other,
        }
    }

    pub fn meta(&self) -> Meta
        ensures kind { result.kind ≡ kind_of self.now.content }
        ensures len { result.len ≡ len_of self.now.content }
    {
        let len = match &self.content {
            MemContent::File(bytes, _) => bytes.len() as u64,
            _ => 0,
        };
        Meta {
            kind: self.kind(),
            len,
        }
    }

    pub fn ident(&self) -> Ident
        ensures dev { result.dev ≡ self.now.dev }
        ensures ino { result.ino ≡ self.now.ino }
    {
        Ident {
            dev: self.dev,
            ino: self.ino,
        }
    }

    pub fn is_directory(&self) -> bool
        ensures { result ≡ is_directory_content self.now.content }
    {
        matches!(&self.content, MemContent::Directory)
    }

    pub fn is_file(&self) -> bool
        ensures { result ≡ is_some (file_content self.now.content) }
    {
        matches!(&self.content, MemContent::File(_, _))
    }

    /// A link's target.
    pub fn target(&self) -> Option<&str>
        ensures { now_of result ≡ link_target self.now.content }
    {
        match &self.content {
            MemContent::Link(target) => Some(target.as_str()),
            _ => None,
        }
    }

    /// A regular file's mode.
    pub fn mode(&self) -> Option<u32>
        ensures { result ≡ option_map (λ f. f.1) (file_content self.now.content) }
    {
        match &self.content {
            MemContent::File(_, mode) => Some(*mode),
            _ => None,
        }
    }

    /// A regular file's bytes.
    pub fn bytes(&self) -> Option<&[u8]>
        ensures { now_of result ≡ option_map (λ f. f.0) (file_content self.now.content) }
    {
        match &self.content {
            MemContent::File(bytes, _) => Some(bytes.as_slice()),
            _ => None,
        }
    }

    /// Gives a regular file other bytes.
    pub fn put_bytes(&mut self, bytes: Vec<u8>)
        ensures { self.new ≡ with_bytes self.old bytes.items }
    {
        if let MemContent::File(old, _) = &mut self.content {
            *old = bytes;
        }
    }

    pub fn put_dev(&mut self, dev: u64)
        ensures { self.new ≡ record self.old { dev = dev } }
    {
        self.dev = dev;
    }
}
